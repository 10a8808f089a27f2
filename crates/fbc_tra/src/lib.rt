//! The bodies by which a transaction begins and commits, over the desk of one attachment. A rollback is not built yet.
//!
//! A body goes over the desk from stage to stage. Where it misses a page or has something to ask, it stays where it stands,
//! and goes on from there when it is called again. The answer to the lock of its number is told to a begin (`take`); all
//! other answers are the desk's alone.
//!
//! - **Proved** (`specs/Begins`, `specs/Commits`):
//!   - Each call goes on from the old stage by the moves of its statement, and comes to its answer where they end (`comes`).
//!   - A begin holds the header in EX, then all transaction inventory pages that it names, and takes the snapshot when
//!     they are in use at once. It asks for the lock of that number in EX with its least active number as the data word.
//!     When it is granted, the transaction is open, the header gives out the next number, and no page stays in use; when
//!     it is refused, the begin is over with that reply.
//!   - `TransactionLimit` comes exactly where the header is held and the next number is one that no file has, `Unbuilt` where
//!     it is another for which the transaction inventory pages have no place; then nothing more is done.
//!   - At the end of a begin a transaction is open, with the snapshot whose number was granted, and the header is raised for
//!     it (`whole`).
//!   - A commit asks for the writes of the dirty pages, each time of the least before which none is to be written, until
//!     none is dirty. Then it finds the page of its number by the header, holds it in EX, and marks the number there, with
//!     the header to be written before the mark. When that page is written, no page stays in use, and the lock of the
//!     number is given up, once. It ends with no open transaction (`whole`).
//!   - A page is missed exactly where it may not be used yet; `Damaged` comes where it stands elsewhere than is due.
//!   - `Refused` comes exactly where the desk refuses the one edit of the statement, or where the header names no page for
//!     the number that commits.
//!   - What is done between two steps is a run of the desk's calls, but that a transaction begins amid it or ends (`goes`).
//!   - Where there is no memory, all transaction inventory pages are held and no snapshot is taken, or the edit is not
//!     made; the call may be made again (`err`).
//!   - `take` changes nothing but at the lock of the number, and there by an answer to what was asked alone.
//! - **Supposed**: nothing. That the pages which a stage holds stay in use until the next call is a matter of the caller;
//!   where they do not, the desk refuses the edit.
//! - **Argued**: that neither edit is ever refused where the statement is given in its time, and that what is asked is legal,
//!   are matters of laws that are not there yet.
#![tactic(auto)]

mod answers;
mod beginning;
mod committing;
mod numbers;
mod pages;
mod steps;

pub use beginning::Begin;
pub use committing::Commit;
pub use steps::BodyStep;
