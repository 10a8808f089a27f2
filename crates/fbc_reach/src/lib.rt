//! What a file reaches: the pages that it names, from its header over its pointer pages to its data pages,
//! each in its roles. A page is read once, at the first of its namings. What is kept of it is enough to judge
//! it in each role, and is found again by its number.
//!
//! - **Proved**:
//!   - `walk` notes exactly the pages that the view names, in the order of `specs/Walk`, each judged in all
//!     its roles, and answers the data pages that are named (`walked`, `found`). The device's bytes stay, and
//!     it writes nothing.
//!   - `Tally::note` reads a page where it is not known yet, once, and else not at all (`once`, `again`).
//! - **Supposed**: the shape is one that a recognised file has, the header is of that size and was read from
//!   page 0. What is said of bytes is said of a device that tells them.
//! - Offered to the crates above, besides: lemmas on namings, tallies and what is kept of pages (the files of
//!   `proofs/` that are `pub`), which `fbc_links` and `fbc_validator` cite.
#![tactic(auto)]

mod content;
mod faults;
mod judging;
mod namings;
mod reading;
mod tally;
mod walking;

pub use content::{Content, PageRead, Version, content_shown};
pub use faults::ReadFault;
pub use namings::{Naming, Role, inventory_page};
pub use reading::read_bytes;
pub use tally::{NamedPage, Tally};
pub use walking::{Visited, is_walked_for, walk};
