//! The row is put into its cell.
#![tactic(auto, using(fbc_desk::proofs::Goes::goes_on))]

ghost use Rattle.std.specs.Prelude.{◌≡◌, IfOk, OnErr};
ghost use Rattle.fbc_desk.specs.Calls.{EditComesTo, GoesOn};
ghost use Rattle.fbc_chains.specs.Places.{row_cells};
ghost use Rattle.fbc_rows.specs.Putting.{IsRow, IsRowOn, PutComesTo, row_edit, row_highs};

use crate::making::write_first;
use crate::parts::RowStep;
use crate::searching::judge;
use fbc_apply::fitting::{cells, value_length};
use fbc_desk::{Desk, Made};
use fbc_kinds::{Cell, Edit, Flag, Value};
use std::alloc::AllocError;

/// Puts the row into the cell of the relation's data page of the sequence, which is in use: then everything is unpinned. A row
/// past all numbers is refused, and so is one on another page.
///
/// # Errors
///
/// Want of memory: nothing is done.
pub(crate) fn put_row(
    desk: &mut Desk,
    relation: u8,
    number: u32,
    value: Value,
    page: u32,
    sequence: u32,
    cell: u16,
) -> Result<RowStep, AllocError>
    ensures puts { IfOk result (PutComesTo desk.old relation number value page sequence cell desk.new) }
    ensures goes { GoesOn desk.old desk.new }
    ensures err { OnErr result (desk.new ≡ desk.old) }
{
    let row = match row_of(desk, relation, sequence, page, cell) {
        Some(row) => row,
        None => return Ok(RowStep::Refused),
    };
    match put(desk, number, value, page, cell)? {
        Made::Done => {
            desk.unpin_all();
            Ok(RowStep::Done { row })
        }
        Made::WriteFirst { page, high } => Ok(RowStep::Must(write_first(desk, page, high))),
        Made::Refused => Ok(RowStep::Refused),
    }
}

/// The edit that puts a new row into the cell. The header, which gave out the number, is written first.
fn put(desk: &mut Desk, number: u32, value: Value, page: u32, cell: u16) -> Result<Made, AllocError>
    ensures made { IfOk result (EditComesTo desk.old desk.new page (row_edit cell number value) row_highs) }
    ensures goes { GoesOn desk.old desk.new }
    ensures err { OnErr result (desk.new ≡ desk.old) }
{
    let content = Cell {
        flag: Flag::Primary,
        number,
        back_page: 0,
        back_cell: 0,
        value,
    };
    desk.edit(page, Edit::PutCell { cell, content }, &[0])
}

/// The number of the row in the cell of the page; none where that is not the relation's data page of the sequence.
fn row_of(desk: &Desk, relation: u8, sequence: u32, page: u32, cell: u16) -> Option<u32>
    ensures { IsRowOn desk.now.cache relation sequence page cell result }
{
    match judge(desk, relation, sequence, page) {
        Some(_) => None,
        None => row_at(desk, relation, sequence, cell),
    }
}

/// The number of the row in the cell of the relation's data page of the sequence: rows count the cells of its data pages in the
/// order of their sequences. None where it is no number.
fn row_at(desk: &Desk, relation: u8, sequence: u32, cell: u16) -> Option<u32>
    ensures { IsRow desk.now.cache.shape relation sequence cell result }
{
    let count = row_cells(desk, relation);
    match sequence.checked_mul(count) {
        Some(first) => first.checked_add(cell as u32),
        None => None,
    }
}

/// How many cells each data page of the relation has.
fn row_cells(desk: &Desk, relation: u8) -> u32
    ensures { result ≡ row_cells desk.now.cache.shape relation }
{
    desk.holds();
    let shape = desk.cache().shape();
    cells(shape.size, value_length(shape, relation))
}
