//! The report of a file's check, as lines of text and as one JSON value.
//!
//! - **Proved**: `text` and `json` write findings byte for byte as `specs/Text` and `specs/Json` say.
#![tactic(auto)]

mod json_report;
mod text_report;

pub use json_report::json;
pub use text_report::text;
