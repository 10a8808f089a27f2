//! The one-thread machine: it has rows and transactions, and no pages, caches or locks. What the store
//! answers is compared with its replies.
//!
//! - **Proved**: `step` answers the reply of the definition (`fbc_kinds`, `specs/Machine`) and leaves its
//!   machine, for all nine commands; without memory the machine stays (`reply`, `after`, `err`). `may_come`
//!   tells exactly whether a command may come.
//! - **Supposed**: a command that is given to `step` may come.
#![tactic(auto)]

mod conditions;
mod machine;
mod scan;
mod steps;

pub use conditions::may_come;
pub use machine::Machine;
pub use steps::step;
