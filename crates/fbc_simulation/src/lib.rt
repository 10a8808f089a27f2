//! The one-thread machine beside a history: what each closed cut would leave in the file means what the
//! machine does, where those go on whose drafts are all there.
//!
//! - **Proved**:
//!   - The machine stands beside every legal history over a sound file (`legal_histories_are_simulated`, by
//!     `IsSimulated` of `specs/Simulated`): take any open transactions, which go on, and a closed cut that
//!     has all drafts of their owners. With them open the view of the cut reads as a machine. In it they are
//!     open too, the commits are done whose marks stand in drafts of the cut, and all other open transactions
//!     are rolled back.
//!   - So it is at the beginning (`first_machines_are_simulated`), after each act that is no edit
//!     (`acts_keep_simulation`), and after an edit that is meant in each view of a cut which sees it
//!     (`edits_keep_simulation`), as every legal one is (`put_cells_are_meant`, `marks_are_meant` and their
//!     like).
//!   - The newest pages, with all open transactions of the living, read as the machine itself
//!     (`newest_pages_are_meant`).
//! - **Supposed**: the file is a sound one of the shape, and the history legal.
//! - The functions do nothing when they are run; `fbc_cut` cites them.
#![tactic(auto)]

mod acts;
mod backouts;
mod cells;
mod edits;
mod histories;
mod newest;

pub use acts::{acts_keep_simulation, first_machines_are_simulated};
pub use backouts::backouts_are_meant;
pub use cells::{changes_come, cleared_cells_are_meant, cleared_cells_come, put_cells_are_meant};
pub use edits::{
    edits_keep_simulation, marks_are_meant, plain_edits_and_marks_come, plain_edits_are_meant,
};
pub use histories::{events_keep_simulation, legal_histories_are_simulated};
pub use newest::{all_opens_are_open, newest_pages_are_meant};
