//! Numbers of transactions, their marks and their snapshots: what every legal history keeps of them.
//!
//! - **Proved** (`legal_histories_keep_numbers`, by `IsNumbered` of `specs/Numbers`; `events_keep_numbers`
//!   for a step):
//!   - What is committed in a view is so in that of each wider cut (`commits_grow_with_cuts`).
//!   - An open transaction is its living owner's; its number was given out, or is the next and its owner has
//!     the header pinned in EX (`open_transactions_stand`). Different owners have different numbers
//!     (`numbers_of_open_transactions_differ`).
//!   - An open transaction without a mark is committed in no view (`unmarked_transactions_are_uncommitted`,
//!     `uncommitted_numbers_are_so_in_each_view`). What is committed in the newest pages and not in the file
//!     is an open one that its owner has marked (`commits_out_of_the_file_are_marked`); the draft with that
//!     mark is its owner's only one, and the file names its page for the number (`marks_are_true`).
//!   - A snapshot holds its own number, and smaller ones that are committed in the file
//!     (`snapshots_are_true`) and so in every view (`held_numbers_are_committed_in_each_view`).
//!   - A mark leaves each view sound that sees it (`dead_marks_keep_views_sound`,
//!     `commit_marks_keep_views_sound`).
//!   - An owner has the number of its open transaction in EX; no view shows it as dead, the file does not
//!     show it as committed, its snapshot holds it (`legal_histories_keep_opens_apart`, by `specs/Opens`).
//!   - Where a transaction begins, all that is committed is so in the file (`begins_follow_all_commits`), its
//!     number is above every open one (`begun_numbers_are_greatest`), and no view has given it out
//!     (`begun_numbers_are_new`).
//! - **Supposed**: the history is legal, and its views were sound at each of its moments; by `fbc_soundness`
//!   that is so of every legal history over a sound file.
//! - The functions do nothing when they are run; the crates above cite mostly the lemmas behind them, the
//!   files of `proofs/` that are `pub`.
#![tactic(auto)]

mod begins;
mod histories;
mod marks;
mod opens_apart;
mod steps;
mod views;

pub use begins::{
    begins_follow_all_commits, begun_numbers_are_greatest, begun_numbers_are_new,
    headers_of_begins_are_newest, open_numbers_are_within,
};
pub use histories::{
    commits_grow_with_cuts, commits_out_of_the_file_are_marked, marks_are_true,
    numbers_of_open_transactions_differ, open_transactions_stand, snapshots_are_true,
    unmarked_transactions_are_uncommitted,
};
pub use marks::{
    commit_marks_keep_views_sound, dead_marks_keep_views_sound, views_allow_dead_marks,
};
pub use opens_apart::{
    events_keep_opens_apart, first_opens_stand_apart, legal_histories_keep_opens_apart,
    open_numbers_are_not_dead_in_the_newest_pages,
};
pub use steps::{events_keep_numbers, first_numbers_are_kept, legal_histories_keep_numbers};
pub use views::{held_numbers_are_committed_in_each_view, uncommitted_numbers_are_so_in_each_view};
