//! The chains of versions: from the newest version of each record its links are followed, each once, through
//! the pages that the file reaches. What is kept says of a cell whether a good link names it, and of a page
//! whether a version of it is at fault along a chain.
//!
//! - **Proved**:
//!   - `follow` answers the chains of the view (`AreChainsOf` of `specs/Following`), and only memory can
//!     fail.
//!   - `is_linked`, `has_fault` and `has_below` read them exactly.
//! - **Supposed**: what was walked is what `fbc_reach` gives for a file of that view: its tally, its data
//!   pages in their order, and the transaction inventory pages of its header.
#![tactic(auto)]

mod chains;
mod namers;
mod versions;

pub use chains::{Chains, follow};
