//! What stands in the cells of data pages, one field at a time. Of a cell that the cache does not have, each reader
//! answers what it answers of an empty one.

ghost use Rattle.std.specs.Prelude.{◌≡◌, ◌≤◌, ◌<◌, ◌++◌, IfSome, drop, length};
ghost use Rattle.std.specs.List.{list_all, position_from};
ghost use Rattle.std.specs.Option.{option_copied};
ghost use Rattle.fbc_kinds.specs.declared.pages.Cell.{Cell as ACell};
ghost use Rattle.fbc_kinds.specs.View.{cell_in, is_empty};
ghost use Rattle.fbc_cache.specs.Cache.{copy_in};
ghost use Rattle.fbc_cache.specs.Least.{IsLeast, is_empty_in};
ghost use Rattle.fbc_cache.specs.Readers.{cell_shown, is_vacant_in};

use crate::cache::Cache;
use fbc_kinds::{Cell, Flag, Page, Value};

impl Cache {
    /// What stands in the cell: nothing, the newest version of a row, or an older one.
    pub fn flag(&self, page: u32, k: u16) -> Flag
        ensures { result ≡ (cell_shown self.now page k).flag }
    {
        match self.version(page, k) {
            Some(cell) => cell.flag,
            None => Flag::Empty,
        }
    }

    /// The transaction that made the version in the cell.
    pub fn number(&self, page: u32, k: u16) -> u32
        ensures { result ≡ (cell_shown self.now page k).number }
    {
        match self.version(page, k) {
            Some(cell) => cell.number,
            None => 0,
        }
    }

    /// The page of the version before the one in the cell, 0 where there is none.
    pub fn back_page(&self, page: u32, k: u16) -> u32
        ensures { result ≡ (cell_shown self.now page k).back_page }
    {
        match self.version(page, k) {
            Some(cell) => cell.back_page,
            None => 0,
        }
    }

    /// The cell of the version before the one in the cell, 0 where there is none.
    pub fn back_cell(&self, page: u32, k: u16) -> u16
        ensures { result ≡ (cell_shown self.now page k).back_cell }
    {
        match self.version(page, k) {
            Some(cell) => cell.back_cell,
            None => 0,
        }
    }

    /// How many bytes the value of the version in the cell has.
    pub fn value_length(&self, page: u32, k: u16) -> usize
        ensures { result ≡ length (cell_shown self.now page k).value }
    {
        self.value(page, k).len()
    }

    /// Copies the value of the version in the cell to the front of `out`, which has room for it, and leaves what stands
    /// behind.
    pub fn copy_value(&self, page: u32, k: u16, out: &mut [u8])
        requires room { length (cell_shown self.now page k).value ≤ length out.old }
        ensures { out.new ≡ (cell_shown self.now page k).value ++ drop (length (cell_shown self.now page k).value) out.old }
    {
        let value = self.value(page, k);
        out[..value.len()].copy_from_slice(value);
    }

    /// The value of the version in the cell, as one of its own.
    pub fn value_of(&self, page: u32, k: u16) -> Value
        ensures { result ≡ (cell_shown self.now page k).value }
    {
        match self.version(page, k) {
            Some(cell) => cell.value,
            None => Value::new(&[]),
        }
    }

    /// The value of the version in the cell.
    fn value(&self, page: u32, k: u16) -> &[u8]
        ensures { result.now ≡ (cell_shown self.now page k).value }
    {
        match self.version(page, k) {
            Some(cell) => cell.value.as_bytes(),
            None => &[],
        }
    }

    /// The cell, where the cache has it.
    fn version(&self, page: u32, k: u16) -> Option<&Cell>
        ensures { option_copied result ≡ cell_in (copy_in self.now.held page) k }
    {
        match self.page(page) {
            Some(Page::Data(data)) => data.cells.items().get(k as usize),
            _ => None,
        }
    }

    /// Whether the cache has the data page, and no cell of it holds a version.
    pub fn is_vacant(&self, page: u32) -> bool
        ensures { result ≡ is_vacant_in (copy_in self.now.held page) }
    {
        match self.page(page) {
            Some(Page::Data(data)) => are_empty(data.cells.items()),
            _ => false,
        }
    }

    /// The first empty cell of the data page, where the cache has it.
    pub fn first_empty(&self, page: u32) -> Option<u16>
        ensures { IsLeast (is_empty_in (copy_in self.now.held page)) result }
    {
        self.holds();
        match self.page(page) {
            Some(Page::Data(data)) => {
                match first_empty(data.cells.items()) {
                    Some(at) => Some(at as u16),
                    None => None,
                }
            }
            _ => None,
        }
    }
}

/// The first of the cells that is empty.
fn first_empty(cells: &[Cell]) -> Option<usize>
    ensures first { result ≡ position_from (λ (c : ACell). is_empty c.flag) 0 cells.now }
    ensures within { IfSome result (λ at. at < length cells.now) }
{
    cells
        .iter()
        .position(|cell| matches!(cell.flag, Flag::Empty))
}

/// Whether all cells are empty.
fn are_empty(cells: &[Cell]) -> bool
    ensures { result ≡ list_all (λ (c : ACell). is_empty c.flag) cells.now }
{
    cells.iter().all(|cell| matches!(cell.flag, Flag::Empty))
}
