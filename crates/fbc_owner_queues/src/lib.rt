//! The queues of the lock table: which waiting owner is granted next, who waits in a circle, and what a dead
//! owner leaves.
//!
//! - **Proved**:
//!   - `grant_waiting` grants the first waiting request of a living owner that can be granted, and answers
//!     None exactly where there is none. As many calls as there are requests come to None
//!     (`grants_come_to_an_end`).
//!   - Where each wait is a raise of what its owner is granted, they grant what one pass in the order of
//!     asking grants (`grants_in_turn`); that condition is kept by every call if each ask is such a raise
//!     (`waits_stay_raises`).
//!   - Once `grant_waiting` answers None for what a living owner waits for, `look` answers Granted exactly
//!     where it waits no more (`looks_tell_grants`).
//!   - `purge` removes the first request of a dead owner.
//!   - `cycle_from` answers a circle of living owners that wait for transactions and relations exactly where
//!     one leads through the owner, and then the one that the search in rising order finds first, its least
//!     owner first. It tries those that a request says to live, in rising order
//!     (`living_owners_are_in_order`). Where it finds no circle, none leads through the owner
//!     (`circles_are_found`). An owner that waits for nothing closes no circle by its ask for a page
//!     (`page_asks_close_no_circle`).
//! - **Supposed**: `purge` is given a dead owner; at most eight living owners have requests, for which a
//!   census of eight suffices (`living_owners_are_few`).
#![tactic(auto)]

mod circles;
mod grants;
mod laws;
mod search;

pub use circles::cycle_from;
pub use grants::{grant_waiting, purge};
pub use laws::{
    circles_are_found, grants_come_to_an_end, grants_in_turn, living_owners_are_few,
    living_owners_are_in_order, looks_tell_grants, page_asks_close_no_circle, waits_stay_raises,
};
