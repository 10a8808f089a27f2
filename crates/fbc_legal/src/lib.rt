//! Which histories are legal: one guard for each kind of event, and what holds after every legal history.
//!
//! - **Proved**, after every legal history (`IsLegal` of `specs/Legal`), over every file and shape:
//!   - **Coherence**: what an owner may use of a page is its newest content (`copies_are_newest`). Copies,
//!     locks, drafts and pairs at once: `legal_worlds_are_coherent`.
//!   - Locks: levels of different owners go beside each other (`locks_go_beside`); where one has a page in
//!     EX, no other has a copy (`exclusive_locks_exclude_copies`); who has a copy is alive and has PR or EX
//!     (`copies_are_held`); who waits for a page has nothing on it yet (`page_waits_hold_nothing`).
//!   - Drafts: their owner is alive, has the page in EX and uses the draft (`drafts_are_held`), and no other
//!     may use the page (`one_draft`).
//!   - Pairs: their owner is alive, has the draft of the high page, and the low one in EX (`pairs_are_held`);
//!     no page stands before itself (`pairs_form_no_circle`).
//!   - Order: a page is written only where none with a draft stands before it (`writes_come_in_order`); a
//!     version comes after the back version that it names (`back_versions_come_first`); a page is freed only
//!     where the newest pages name it nowhere (`freed_pages_are_named_nowhere`); a back value loses its link
//!     only below a row whose page the owner has in EX (`links_are_cut_below_a_held_row`).
//!   - Waits: who has a page pinned is alive and has it in PR or EX (`pins_are_held`); a living owner waits
//!     upward, by the ranks of what it has pinned (`waits_go_upward`). So **no owners wait for each other in a
//!     circle**, over pages, numbers and relations mixed (`waits_form_no_circle`, by `IsHeldUpBy` of
//!     `specs/Circles`), where a wait for a page counts if the other has it pinned; over pages alone it is
//!     `page_waits_form_no_circle`. A legal ask for a page is never refused as one that would close a circle
//!     (`page_asks_are_refused_for_no_circle`). That a wait ends is not said.
//!   - What an event of one owner leaves of every other that is alive: copies, pins, pairs, drafts, requests,
//!     levels, open transaction and snapshot (`legal_acts_leave_the_living`).
//! - The functions do nothing when they are run; the crates above cite mostly the lemmas behind them, the
//!   files of `proofs/` that are `pub`.
#![tactic(auto)]

mod coherence;
mod frames;
mod laws;
mod page_waits;

pub use coherence::{
    copies_are_held, copies_are_newest, drafts_are_held, exclusive_locks_exclude_copies,
    legal_worlds_are_coherent, locks_go_beside, one_draft, page_waits_hold_nothing, pairs_are_held,
    pairs_form_no_circle,
};
pub use frames::legal_acts_leave_the_living;
pub use laws::{
    back_versions_come_first, freed_pages_are_named_nowhere, legal_so_far,
    links_are_cut_below_a_held_row, writes_come_in_order,
};
pub use page_waits::{
    page_asks_are_refused_for_no_circle, page_waits_form_no_circle, pins_are_held,
    waits_form_no_circle, waits_go_upward,
};
