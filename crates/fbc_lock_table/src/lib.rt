//! The lock table: who holds and who waits for which page, transaction or relation, as a list of requests in
//! the order of asking.
//!
//! - **Proved**:
//!   - The table is always a lawful list. `ask`, `look`, `lower`, `withdraw`, `die`, `least_data`, `used`,
//!     `waiters` and `granted` answer by the list alone, exactly, and each says the list after it
//!     (`specs/Answers`, `Effects`, `Waiters`).
//!   - No call but `new` takes memory.
//! - **Supposed**: who asks is alive as far as its requests tell, waits for nothing, asks for some level, and
//!   for a page only where it has no request for it (`may_ask`); a level is lowered to a part of itself.
#![tactic(auto)]

mod answers;
mod requests;
mod table;

pub use answers::{Asked, Looked};
pub use table::LockTable;
