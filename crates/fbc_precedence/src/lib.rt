//! The order in which the pages of one attachment are to be written: pairs of pages, the high one before the
//! low one, never in a circle.
//!
//! - **Proved** of `Graph`, which is the list of its pairs, the oldest first:
//!   - A page stands before another where pairs lead from the one to the other, and none before itself
//!     (`order`). No call but `new` takes memory.
//!   - `relate` answers Already exactly where the high page stands before the low one, WriteFirst exactly
//!     where the low one stands before the high one, and Recorded where neither does (`already`,
//!     `write_first`, `recorded`); then the pair is added, and else nothing changes (`after`).
//!   - `clear` removes exactly the pairs of a page; `next_to_write` answers the least page that none stands
//!     before, among the given one and those before it; `blocked` tells whether some page stands before it;
//!     `pairs` hands out all pairs. `lesser` answers the lesser of two pages, of which one may be missing.
//! - **Supposed**: the two pages of a pair differ, and no more pages stand in pairs with them than there are
//!   buffers, which `has_room` tells exactly; for as many pages as there are buffers there is room
//!   (`pages_are_few`).
#![tactic(auto)]

mod graphs;
mod laws;
mod pages;
mod related;
mod search;

pub use graphs::Graph;
pub use laws::pages_are_few;
pub use related::Related;
pub use search::lesser;
