//! The desk of one attachment: its cache with what it did since its last step, what it has found and done, its
//! open transaction, and the tests that each edit passes before it is made.
//!
//! Contracts see it as a `DeskState` (`specs/Desk`). Bodies of statements stand above it: they hold pages, look at
//! them and edit them through its calls alone, so that what goes on between two steps is a list of these calls
//! (`GoesOn`, `specs/Calls`).
//!
//! - **Proved**:
//!   - Each call does what `specs/Calls` says, and is one of the calls of which `GoesOn` is made (`goes`). A pin,
//!     an unpin, a pair and an edit are events that the next step carries; a pin that was not sent, and behind
//!     which nothing was done with the page, is taken back by its unpin.
//!   - `hold`, `hold_as` and `look_as` answer Here, Miss and Damaged exactly where they come (`held`, by
//!     `specs/Holds`): a page is missed where it may not be used, and is damage where it lies past the pages that
//!     the file may have, or stands elsewhere than is due.
//!   - `edit` makes an edit exactly where it fits a page that is in use and held in EX, has its grounds
//!     (`specs/Grounds`) and has a place; else it is refused and nothing changes (`made`). What is to be written
//!     first is told, and nothing is edited.
//!   - `take` takes the answer to a step: nothing is unsent any more, and what the header shows is known
//!     (`taken`, `exact`, `err`).
//!   - `may_wait_for` says whether a data page may be waited for beside those in use.
//! - **Supposed**: the shape is one that a recognised file has; a page that is wanted may be so and is one that
//!   the file may have (`want`).
//! - **Argued**: that what passes the tests is legal is a matter of laws that are not there yet. An event for
//!   which there is no place spills (`is_spilled`), and no body does so much between two steps. So does an unpin of
//!   the header by which the number of the open transaction is not given out yet, and no body asks for one.
//! - The bodies of statements and `fbc_attachment` use it, in plays of the tests; no command of the program does so yet.
#![tactic(auto)]

mod desk;
mod edits;
mod grounds;
mod holding;
mod known;
mod local;
mod noting;
mod own;
mod pins;
mod sizes;
mod taking;
mod transactions;
mod waits;

pub use desk::Desk;
pub use edits::Made;
pub use holding::{Held, misplaced};
pub use own::{Deed, Own};
