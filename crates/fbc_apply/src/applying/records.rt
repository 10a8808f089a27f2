//! Edits of pointer pages and of data pages.

ghost use Rattle.std.specs.Prelude.{◌≡◌, ◌<◌, length};
ghost use Rattle.fbc_kinds.specs.DataSpelling.{empty_cell};
ghost use Rattle.fbc_kinds.specs.Edits.{HasCellNumbers, IsShape, Tried, cell_cleared, cell_put, is_version, slot_named, value_length};

use crate::fitting::{is_version, value_length};
use fbc_kinds::{Cell, Flag, Page, Shape, Value};

/// Puts a page number into a slot, 0 for none.
pub(super) fn name(slot: u32, number: u32, page: &mut Page) -> bool
    ensures { Tried result (slot_named slot number page.old) page.old page.new }
{
    let Page::Pointer(pointer) = page else {
        return false;
    };
    if slot as usize >= pointer.slots.len() {
        return false;
    }
    pointer.slots.set(slot as usize, number);
    true
}

/// Puts a version into a cell.
pub(super) fn put_cell(shape: &Shape, cell: u16, content: Cell, page: &mut Page) -> bool
    requires { IsShape shape.now }
    ensures tried { Tried result (cell_put shape.now cell content page.old) page.old page.new }
    ensures numbers { HasCellNumbers content }
{
    let Page::Data(data) = page else {
        return false;
    };
    if cell as usize >= data.cells.len() {
        return false;
    }
    if !is_version(value_length(shape, data.relation), &content) {
        return false;
    }
    data.cells.set(cell as usize, content);
    true
}

/// A cell that holds nothing.
pub(super) fn empty_cell() -> Cell
    ensures { result ≡ empty_cell }
{
    Cell {
        flag: Flag::Empty,
        number: 0,
        back_page: 0,
        back_cell: 0,
        value: Value::new(&[]),
    }
}

/// Empties a cell.
pub(super) fn clear_cell(cell: u16, page: &mut Page) -> bool
    ensures { Tried result (cell_cleared cell page.old) page.old page.new }
{
    let Page::Data(data) = page else {
        return false;
    };
    if cell as usize >= data.cells.len() {
        return false;
    }
    data.cells.set(cell as usize, empty_cell());
    true
}
