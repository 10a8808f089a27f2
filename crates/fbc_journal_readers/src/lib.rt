//! What a journal tells without taking memory: whose draft a page has, and which page is to be written before
//! which. Both go through the whole journal, so no call of a running program makes them.
//!
//! - **Proved**: each answer is that of the replay of the journal over a file of blank pages, in which an
//!   edit that does not fit changes nothing and a failed write counts as not landed (`draft_owner`,
//!   `before`).
#![tactic(auto)]

mod outlines;
mod pairs;
mod readers;
mod sketches;

pub use readers::{before, draft_owner};
