//! Firm facts: what every view shows that has all drafts of an owner, and how it stays through every legal
//! event.
//!
//! - **Proved**, for every shape, every sound file of it and every legal history over it:
//!   - **Copies carry leans**: a page of which an owner has a copy has a draft of that owner, or none
//!     (`copied_pages_are_own_or_kept`). So what the copy shows, with the newest stamps, may be leant on, if
//!     the owner's draft of the page comes first (`copies_carry_leans`).
//!   - **Copies make facts firm**: a test that reads copied pages alone is firm where the newest pages pass
//!     it (`copied_pages_make_facts_firm`): what a header shows (`copied_headers_make_facts_firm`), how a
//!     data page is named (`copied_pages_name_rows_firmly`), the state of a number
//!     (`copied_states_are_firm`).
//!   - **Firm facts stay**: through the owner's own events that are no edits and that it outlives, its writes
//!     among them (`own_acts_keep_firm_facts`), and through every edit that leaves them, another's or its own
//!     (`edits_leave_firm_facts`, by the schema `EditLeaves`). So they stay through every event of another
//!     that leaves them where it is an edit (`events_of_others_leave_firm_facts`).
//!   - **Headers only grow** in the views that see an edit (`seen_edits_grow_headers`). What grows with them,
//!     as which pages a header names (`header_tests_grow`), stays firm (`header_facts_stay_firm`).
//!   - **Commits and dead marks stay firm** (`commits_stay_firm`, `dead_numbers_stay_firm`).
//!   - **Pinned pages stay named** (`pinned_pages_stay_named`).
//!   - **Notes**: a note that an owner may make by its copies, and by notes that hold, holds
//!     (`notes_hold_where_copies_show_them`), and so does what it may note of a row by the row's own cell
//!     (`sights_hold_where_copies_show_them`); so do stands (`stands_hold_where_copies_show_them`), what is
//!     seen from them (`sights_hold_where_stands_tell_them`), and that nothing is seen
//!     (`grounds_tell_where_nothing_is_seen`, `rows_without_pages_show_nothing`).
//!   - **Notes hold on**: whatever others do, while the page on which a note rests is pinned
//!     (`others_leave_supported_notes`); and through the owner's own events that are no edits, while it lives
//!     and has an open transaction without a mark (`own_acts_leave_notes`). What a note says of the header or
//!     of a number that is over lasts through own edits too (`own_events_leave_lasting_notes`).
//!   - **What an open transaction sees is constant**: it is the same where all others are at their ends
//!     (`ended_machines_are_seen_alike`), and stays whatever others ask of the machine
//!     (`others_leave_what_is_seen`), so through every event of another
//!     (`events_of_others_leave_what_is_seen`). Its owner's own events that are no edits leave the machine,
//!     while it lives and its transaction has no mark (`own_acts_leave_the_machine`).
//!   - **Every own view shows it**: the snapshot of an open transaction sees in each view that has its
//!     owner's drafts what the owner sees on the machine (`every_own_view_shows_what_is_seen`).
//!   - **Own cells show it**: where the copy of a named page shows a row's own cell, that tells what is seen, if the
//!     version there is held, or leads no further, or is no newest one (`own_cells_show_what_is_seen`).
//! - **Supposed**: the history is legal. For every fact but those named above `EditLeaves` is owed of others'
//!   edits, and of the owner's own.
//! - **Argued**: how an attachment comes to its copies, and that it asks no more than these facts, is said in
//!   the crates above.
//! - The functions do nothing when they are run. The crates above cite them, and lemmas of `proofs/` that
//!   are `pub`: facts that are no tests go by `copy-leans` and `edits-leave`.
#![tactic(auto)]

mod cells;
mod copies;
mod events;
mod headers;
mod made;
mod named;
mod notes;
mod numbers;
mod seen;

pub use cells::own_cells_show_what_is_seen;
pub use copies::{copied_pages_are_own_or_kept, copies_carry_leans};
pub use events::{
    edits_leave_firm_facts, events_of_others_leave_firm_facts, own_acts_keep_firm_facts,
};
pub use headers::{header_facts_stay_firm, header_tests_grow, seen_edits_grow_headers};
pub use made::{
    copied_headers_make_facts_firm, copied_pages_make_facts_firm, copied_pages_name_rows_firmly,
    copied_states_are_firm,
};
pub use named::pinned_pages_stay_named;
pub use notes::{
    grounds_tell_where_nothing_is_seen, notes_hold_where_copies_show_them,
    others_leave_supported_notes, own_acts_leave_notes, own_events_leave_lasting_notes,
    rows_without_pages_show_nothing, sights_hold_where_copies_show_them,
    sights_hold_where_stands_tell_them, stands_hold_where_copies_show_them,
};
pub use numbers::{commits_stay_firm, dead_numbers_stay_firm};
pub use seen::{
    ended_machines_are_seen_alike, events_of_others_leave_what_is_seen,
    every_own_view_shows_what_is_seen, others_leave_what_is_seen, own_acts_leave_the_machine,
};
