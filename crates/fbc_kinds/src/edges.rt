//! The order of writes between two pages.

/// The page `high` is to be written before the page `low`.
#[derive(Clone, Copy, Debug, PartialEq, Eq)]
pub struct Edge {
    pub high: u32,
    pub low: u32,
}
