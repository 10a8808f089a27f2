//! Drafts of pages.

use fbc_kinds::Page;

/// A page as its owner has edited it, not written yet.
#[derive(Debug, Drop)]
pub struct Draft {
    pub owner: u32,
    pub content: Page,
}
