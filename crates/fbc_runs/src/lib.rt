//! Runs of the one-thread machine: what every run keeps of its transactions and rows, when one machine reads
//! as another, and what is left of it where some of its open transactions end.
//!
//! - **Proved**:
//!   - Every run is orderly (`runs_are_orderly`, by `IsOrderly` of `specs/Orderly`): of the transactions that
//!     are not rolled back no two have one number, no owner has two open ones, open snapshots hold their own
//!     number and committed ones alone, and in front of a version of an open transaction stand only versions
//!     of the same.
//!   - One machine reads as another where both mean the same and of the newest versions of rows the first
//!     lacks settled deletions alone (`ReadsAs` of `specs/Reading`). Commands keep this
//!     (`changes_keep_reading`, `commits_keep_reading`, `begins_keep_reading`), and so does what edits leave
//!     (`edits_keep_reading`).
//!   - A transaction that ends anyway may end before (`ends_come_to_the_same`), and what is rolled back is
//!     not read (`rolled_back_ones_are_not_read`).
//!   - Commands of which each may come are a run (`playable_commands_are_runs`).
//! - **Supposed**: the run begins with an orderly machine, as what a file means is where every number of a
//!   version has begun (`files_mean_orderly_machines`).
//! - The functions do nothing when they are run. `fbc_meanings` and `fbc_simulation` cite the lemmas behind
//!   them, the files of `proofs/` that are `pub`.
#![tactic(auto)]

mod ended;
mod orderly;
mod reading;
mod runs;

pub use ended::{
    begun_owners_are_gained, commits_of_ended, ended_owners_are_not_read, ends_come_to_the_same,
    living_owners_change_ended_machines, none_living_in_a_file, same_ends,
};
pub use orderly::{
    commands_keep_machines_orderly, ended_machines_are_orderly, files_mean_orderly_machines,
    own_versions_stand_in_front, runs_are_orderly,
};
pub use reading::{
    begins_keep_reading, changes_keep_reading, commits_keep_reading, edits_keep_reading,
    machines_read_as_themselves, rolled_back_ones_are_not_read,
};
pub use runs::playable_commands_are_runs;
