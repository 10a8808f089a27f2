//! What an edit of one view leaves of what the view means, beside a machine that the meaning reads as: laws
//! of one view, with any transactions open. They know no history, lock or cut.
//!
//! - **Proved**: after the edit the meaning reads (`fbc_runs`, `specs/Reading`) as the machine does, which
//!   has made the edit's command where it is one:
//!   - A first version is an insertion (`first_versions_insert`), a new or an own one an update or a deletion
//!     (`new_versions_change`, `own_versions_change`), the mark of an open number a commit (`marks_commit`).
//!   - All else is no command: versions whose number is neither committed nor open, moves, backouts, cuts,
//!     clearings, other marks (`uncommitted_versions_are_not_read` and its like), and what leaves chains and
//!     states (`reads_alike`).
//!   - A view's meaning gains a transaction that begins with its next number (`begun_views_gain`).
//! - **Supposed**: the view is sound and shows what the edit wants, as in `fbc_version_edits`; open
//!   transactions have their own owners and numbers, none past the next one; a backout takes nothing that is
//!   committed or open, and a cut or a cleared deletion only what every open snapshot holds.
//! - The functions do nothing when they are run; `fbc_simulation` cites them, and lemmas of `proofs/`.
#![tactic(auto)]

mod alike;
mod begins;
mod clears;
mod commands;
mod marks;
mod owners;
mod puts;

pub use alike::reads_alike;
pub use begins::begun_views_gain;
pub use clears::{
    cleared_deletions_are_not_read, cleared_values_are_not_read, cleared_versions_are_not_read,
};
pub use commands::{
    first_versions_insert, new_versions_change, own_versions_change, versions_off_rows_are_not_read,
};
pub use marks::{marks_are_not_read, marks_commit};
pub use owners::living_owners_differ;
pub use puts::{
    backouts_are_not_read, cuts_are_not_read, moves_are_not_read, uncommitted_versions_are_not_read,
};
