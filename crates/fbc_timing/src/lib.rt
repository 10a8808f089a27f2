//! How long a piece of work took, for the programs that measure: by the clock, and of the processor, which
//! is steadier while others are at work.
//!
//! - **Proved**: the calls are safe and return. Of times nothing is proved.
#![tactic(auto)]

mod spent;

pub use spent::{Spent, Start};
