//! Where a row stands.

ghost use Rattle.std.specs.Prelude.{◌≡◌, ◌<◌, ◌≤◌};
ghost use Rattle.fbc_kinds.specs.HeaderSpelling.{IsFileShape};
ghost use Rattle.fbc_cache.specs.Readers.{place};
ghost use Rattle.fbc_chains.specs.Places.{row_cells, row_place};

use fbc_apply::fitting::{cells, value_length};
use fbc_cache::Place;
use fbc_desk::Desk;
use fbc_kinds::Shape;

/// The place of a row: a cell of one of the relation's data pages.
#[derive(Clone, Copy, Debug, PartialEq, Eq)]
pub struct RowPlace {
    pub relation: u8,
    /// Which of the relation's data pages it is, from 0.
    pub sequence: u32,
    pub cell: u16,
}

impl RowPlace {
    /// Where the data page of the row stands.
    pub(crate) fn data_place(&self) -> Place
        ensures { result ≡ place 5 self.now.relation self.now.sequence }
    {
        Place {
            kind: 5,
            relation: self.relation,
            sequence: self.sequence,
        }
    }
}

/// The place of a row: rows count the cells of the relation's data pages in the order of their sequences.
pub fn row_place(desk: &Desk, relation: u8, row: u32) -> RowPlace
    ensures { result ≡ row_place desk.now.cache.shape relation row }
{
    let count = row_cells(desk.cache().shape(), relation);
    RowPlace {
        relation,
        sequence: row / count,
        cell: (row % count) as u16,
    }
}

/// How many cells each data page of the relation has.
fn row_cells(shape: &Shape, relation: u8) -> u32
    requires { IsFileShape shape.now }
    ensures count { result ≡ row_cells shape.now relation }
    ensures some { 0 < result }
    ensures few { result ≤ 16384 }
{
    cells(shape.size, value_length(shape, relation))
}
