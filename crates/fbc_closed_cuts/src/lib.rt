//! Cuts of a history: sets of drafted pages that may reach the file together, the view of the file with them,
//! and what every such view holds after a legal history.
//!
//! - **Proved**:
//!   - A set of drafts that has with the low page of each pair its high one is a closed cut, and has all that
//!     stand before its pages (`pairs_close_cuts`). A view lies between what is kept and what is newest
//!     (`views_lie_between`). The newest header has grown out of the one in the file (`headers_grow`).
//!   - **No legal event but an edit makes a new view**: a closed cut after it is one before it, or lacks the
//!     written page of one, with the same view (`acts_make_no_new_views`). Before the first event each view
//!     is the file (`first_views_are_the_file`).
//!   - **An edit changes only the views that hold its page** (`edits_change_views_by_their_page`). Each of
//!     those shows what the edit leans on (`views_show_what_edits_lean_on`) and does not reach what it wants
//!     named nowhere, if that is neither page 0 nor an inventory page that the newest header counts
//!     (`pages_named_nowhere_are_unreached`); all of this at once is `views_see_edits`.
//!   - **Views stay sound**: over a sound file they begin so (`first_views_are_upheld`), each act but an edit
//!     leaves them so (`acts_uphold_what_is_upheld`), and so does an edit that leaves each view sound which
//!     sees it (`edits_uphold_what_is_upheld`).
//!   - **Firm facts**: an owner's copy is what every view shows that holds all its drafts
//!     (`copies_are_firm`). What is firm stays so through others' events that are no edits
//!     (`firm_facts_outlive_others`, by `cuts_of_own_drafts_come_from_such`), and is so of the newest pages
//!     (`firm_facts_are_newest`).
//!   - As code: `is_closed` tells whether a list of pages closes a list of edges, and `view` what the file
//!     would hold with the drafts of a list, after a journal over blank pages.
//! - **Supposed**: the history is legal; that edits keep the views sound which see them is owed by the crates
//!   above (`specs/Owed`).
//! - The laws do nothing when they are run; the crates above cite them, and lemmas of `proofs/` that are
//!   `pub`.
#![tactic(auto)]

mod cuts;
mod firm;
mod laws;
mod upheld;
mod views;

pub use cuts::{is_closed, view};
pub use firm::{
    copies_are_firm, cuts_of_own_drafts_come_from_such, firm_facts_are_newest,
    firm_facts_outlive_others,
};
pub use laws::{pairs_close_cuts, views_lie_between};
pub use upheld::{acts_uphold_what_is_upheld, edits_uphold_what_is_upheld, first_views_are_upheld};
pub use views::{
    acts_make_no_new_views, edits_change_views_by_their_page, first_views_are_the_file,
    headers_grow, pages_named_nowhere_are_unreached, views_see_edits,
    views_show_what_edits_lean_on,
};
