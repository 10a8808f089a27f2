//! The vocabulary of the store: what stands in a page, what an edit of a page is, and what the one-thread
//! machine is asked and answers. The definitions that every theorem cites stand in `specs/`.
//!
//! - Defined here: the limits of pages and their spelling, edits, views, reach, soundness, chains, what a
//!   snapshot sees, the one-thread machine, the meaning of a file, and lost space.
//! - Offered to the crates above: the types, and lemmas on these definitions (the files of `proofs/` that are
//!   `pub`). The theorems stand with the crates that prove them.
//! - **Proved**: `Listed` is its list and `Padded` its bytes, with zeros behind them up to its width; `Rows`
//!   is the list of its rows, and a clone of it the same list; `is_name` tells the names that a relation may
//!   have.
//! - **Supposed**: a place that is set is within its list, a padded text within its width, and a circle has
//!   at most eight owners.
#![tactic(auto)]

mod commands;
mod edges;
mod edits;
mod faults;
mod listed;
mod padded;
mod pages;
mod relation_names;
mod replies;
mod rows;
mod rules;
mod shapes;
mod snapshots;

pub use commands::Command;
pub use edges::Edge;
pub use edits::Edit;
pub use faults::{ApplyFault, PageFault};
pub use listed::Listed;
pub use padded::{Name, Padded, Value};
pub use pages::{Cell, Data, Flag, Header, Inventory, Page, Pointer, Relation, State, Tip};
pub use relation_names::is_name;
pub use replies::{Circle, Reply};
pub use rows::Rows;
pub use rules::Rule;
pub use shapes::Shape;
pub use snapshots::{Snapshot, Standing, Transaction};
