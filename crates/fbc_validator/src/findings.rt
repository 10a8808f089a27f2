//! What a check of a file finds.

use fbc_kinds::{Listed, Rule};

/// What was found in a file.
#[derive(Debug, Drop)]
pub struct Findings {
    /// The file's length in pages.
    pub pages: u32,
    /// Each damaged page and the first rule that it breaks, by rising page numbers.
    pub damages: Listed<(u32, Rule)>,
    /// The lost pages, rising; none where a page is damaged.
    pub lost_pages: Listed<u32>,
    /// The lost cells by their pages and places, rising; none where a page is damaged.
    pub lost_cells: Listed<(u32, u16)>,
}
