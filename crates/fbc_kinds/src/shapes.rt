//! What stays the same over a file's life.

use crate::padded::Name;

/// The shape of a file: what its header says that no edit changes.
#[derive(Clone, Copy, Debug, PartialEq, Eq)]
pub struct Shape {
    /// Bytes of a page.
    pub size: u32,
    /// How many relations there are, 1 to 8.
    pub count: u8,
    /// The names of the relations; those past the count are empty.
    pub names: [Name; 8],
    /// The greatest lengths of the relations' values; those past the count are 0.
    pub lengths: [u8; 8],
    /// How many pages the file may have.
    pub limit: u32,
}
