//! One buffer.

use fbc_kinds::Page;
use fbc_levels::Level;

/// A page that is held or waited for.
#[derive(Debug, Drop)]
pub struct Buffer {
    pub page: u32,
    /// The level that is granted, as far as it was learnt.
    pub level: Level,
    /// The level that is waited for.
    pub wanted: Option<Level>,
    /// What the page holds, where it was read or made since its lock was granted.
    pub copy: Option<Page>,
    /// Whether the copy was edited and not written since.
    pub is_dirty: bool,
    /// Whether the page is in use.
    pub is_pinned: bool,
    /// Whether somebody asked for the page while it was in use.
    pub is_blocking: bool,
}
