//! Plays of a script by real attachments over one region, step by step, for tests: which answers they get, and which
//! events there are. Before each step the region is asked whether it may be taken.
//!
//! - **Proved**: nothing panics, and no step is taken that the region does not allow.
//! - **Supposed**: the shape is one that a recognised file has.
#![tactic(auto)]

mod answering;
mod ending;
mod file_shape;
mod floor;
mod kills;
mod orders;
mod playing;
mod replies;
mod rounds;
mod seats;
mod steps;
mod tracing;
mod trial;

pub use ending::End;
pub use playing::{Played, play};
pub use trial::Settings;
