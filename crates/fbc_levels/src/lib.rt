//! The seven lock levels, what is locked, and the state of the locks as a list of requests.
//!
//! - **Proved**:
//!   - `compatible`, `join`, `highest_beside`, `number` and `of_number` are the table of the levels.
//!   - It does not matter which of two levels is named first (`compatible_both_ways`); what goes beside a
//!     level goes beside each that it gives as well (`lower_levels_go_beside`).
//!   - The holder that `specs/LockState` finds is in the way, and nobody with a lesser number is; without one
//!     nobody is (`holders_are_least`).
//!   - A circle has at most eight owners (`Cycle::owners`).
//! - **Supposed**: of a list of owners, that it has at most eight.
//! - Defined here: a lawful list of requests (`specs/LockState`), who holds what another wants, and what a
//!   circle of waits is (`specs/Waits`).
#![tactic(auto)]

mod laws;
mod levels;
mod resources;

pub use laws::{
    compatible_both_ways, holders_are_least, lower_levels_go_beside, same_resources_are_equal,
};
pub use levels::{Level, compatible, highest_beside, join, number, of_number};
pub use resources::{Callback, Cycle, Request, Resource, Series};
