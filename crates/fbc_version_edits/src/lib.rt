//! What edits of versions do to a view of a file: laws of one view, before and after a cell of a data page or
//! the state of a transaction changes. They say that the view stays sound, what becomes of the row's chain,
//! and what that means for the one-thread machine. They know no history or lock.
//!
//! - **Proved**:
//!   - After each of the twelve edits the view is sound (`edits_keep_views_sound`). An edit of a cell has one
//!     of the forms below (`cell_edits_have_forms`).
//!   - Put: a first version makes its row's chain (`first_versions_keep_views`), a version over a committed
//!     one stands in front of it (`new_versions_keep_views`), one over an own takes its place
//!     (`own_versions_keep_views`), and a moved one is lost until it is named (`moved_versions_keep_views`).
//!   - Gone: a backout takes the row's top (`backouts_keep_views`), a cut what is below a version
//!     (`cuts_keep_views`), a clearing the row (`cleared_versions_keep_views`,
//!     `cleared_deletions_keep_views`) or a back value that is in no chain (`cleared_values_keep_views`). No
//!     other chain changes, by none of these.
//!   - A mark changes the state of its number alone (`marks_keep_views`); a page that is not reached may
//!     change at will (`changes_off_reach_keep_views`).
//!   - As commands of an open transaction: first versions are insertions, the others updates or deletions
//!     (`first_versions_are_insertions`, `new_versions_are_changes`, `own_versions_are_changes`), which may
//!     come (`insertions_may_come`), a change where the snapshot holds the version below and no other open
//!     transaction has its number (`changes_may_come`).
//! - **Supposed**: the view is sound, of a file of the shape, and shows what the edit wants (`IsAdmittedEdit`
//!   of `specs/Forms`, for all twelve).
//! - What an edit leaves of the meaning stands in `fbc_meanings`. The functions do nothing when they are run;
//!   the crates above cite the lemmas behind them, the files of `proofs/` that are `pub`.
#![tactic(auto)]

mod clears;
mod commands;
mod cuts;
mod edits;
mod marks;
mod puts;
mod tops;

pub use clears::{
    cleared_deletions_keep_views, cleared_values_keep_views, cleared_versions_keep_views,
};
pub use commands::{
    changes_may_come, first_versions_are_insertions, insertions_may_come, new_versions_are_changes,
    own_versions_are_changes,
};
pub use cuts::cuts_keep_views;
pub use edits::{
    cell_edits_have_forms, changes_off_reach_keep_views, edits_keep_views_sound,
    row_edits_keep_names,
};
pub use marks::marks_keep_views;
pub use puts::{first_versions_keep_views, moved_versions_keep_views, own_versions_keep_views};
pub use tops::{backouts_keep_views, new_versions_keep_views};
