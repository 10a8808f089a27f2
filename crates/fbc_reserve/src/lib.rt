//! Locks on what is no page: the ask for a relation, as a statement makes it, and how one lock on a relation or
//! on a transaction's number is got, step by step.
//!
//! - **Proved**:
//!   - `relation_ask` asks for nothing exactly where the level that is held gives the wanted one (`none`), and
//!     else for the relation in the level that gives both, with data word 0 (`some`).
//!   - `Waiting::new` begins with the ask for the lock, and `next` tells what comes next, by `specs/Waits`.
//!   - `Waiting::take` takes an answer (`after`). Got comes next exactly after Granted (`got`), and Over exactly
//!     after Busy, Room or Deadlock, with that reply (`over`). Something is asked exactly after Queued and NotYet,
//!     and then it is a Look, and after Reaped, and then it is the same again (`must`).
//!   - `Waiting::is_answered_by` tells whether an answer is one to that ask.
//!   - What is asked is no page, and its level is not none (`lawful`). Nothing takes memory.
//! - **Supposed**: of a lock that is got so, that it is of no page and that its level is not none (`MayWaitFor`);
//!   of an answer, that it is one to the ask that `next` gave (`is_answer_to`).
#![tactic(auto)]

mod refusals;
mod relations;
mod waiting;

pub use relations::relation_ask;
pub use waiting::{WaitStep, Waiting};
