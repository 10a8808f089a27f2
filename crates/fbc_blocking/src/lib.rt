//! Blocking callbacks: who waits for what an owner holds on a page, and what it is asked to give up.
//!
//! - **Proved**:
//!   - `blocked_by` names the first living owner whose wanted level conflicts with what the owner is granted
//!     on the page.
//!   - `next_callback` names the least page past a given one on which there is such an owner, with the
//!     highest of none, PR and EX that goes beside all that living owners wait for there.
//! - **Argued**: where nobody waits, `next_callback` reads one count and no request.
#![tactic(auto)]

mod callbacks;

pub use callbacks::{blocked_by, next_callback};
