//! Edits of pages, carried out: `apply` makes an edit where it fits, and says so where it does not. What an
//! edit comes to stands in `fbc_kinds`, `specs/Edits`; here it is done, so that a changed body proves less
//! again.
//!
//! - **Proved**: for all twelve edits `apply` gives the page that the definition gives, `Unfit` exactly where
//!   the definition gives none, and on every error the page as it was (`ok`, `unfit`, `err`). A page within
//!   its limits stays within them (`edits_keep_limits`).
//! - **Supposed**: the page is within its limits in a file of that shape, which has one of the five page
//!   sizes and at most eight relations (`IsShape`).
#![tactic(auto)]

mod applying;
mod copies;
pub mod fitting;

pub use applying::{apply, edits_keep_limits};
pub use copies::copied;
