//! Which version named a cell first: marks of the cells, beside the pages that were named.

ghost use Rattle.std.specs.Prelude.{◌≡◌, ◌==◌, ◌&&◌, ◌<◌, ℕ, Option, Some, None, if◌then◌else◌, IfOk, OnOk, length};
ghost use Rattle.fbc_links.specs.Namers.{mark_at, mark_in, namer_at};

use std::alloc::{AllocError, Global};

/// The place of a cell in a file.
#[derive(Clone, Copy, Debug, PartialEq, Eq)]
pub(crate) struct Place {
    pub page: u32,
    pub cell: u16,
}

/// For each cell that is named, the version that named it first. A page is known by its index among
/// those that were named. It has a row of marks, one for each of its cells, from the first of them
/// that is named on.
#[derive(Drop)]
pub(crate) struct Namers {
    rows: Vec<Vec<Option<Place>>>,
}

impl Namers {
    /// No cell is named yet. There is room for the rows of so many pages.
    pub(crate) fn new(alloc: Global, pages: usize) -> Result<Namers, AllocError>
        ensures { IfOk result (λ namers. (index cell : ℕ) → namer_at namers index cell ≡ None) }
    {
        Ok(Namers {
            rows: Vec::with_capacity(alloc, pages)?,
        })
    }

    /// The version that named a cell first, if one did.
    pub(crate) fn get(&self, index: usize, cell: u16) -> Option<Place>
        ensures { result ≡ namer_at self.now index cell }
    {
        let row = self.rows.get(index)?;
        *row.get(usize::from(cell))?
    }

    /// Marks a cell, of a page of so many cells, as one that `namer` names.
    pub(crate) fn set(
        &mut self,
        alloc: Global,
        index: usize,
        cells: usize,
        cell: u16,
        namer: Place,
    ) -> Result<(), AllocError>
        requires { cell < cells }
        ensures { OnOk result ((i c : ℕ)
            → namer_at self.new i c ≡ (if (index == i) && (cell == c) then Some namer else namer_at self.old i c)) }
    {
        add_rows(alloc, &mut self.rows, index)?;
        set_mark(&mut self.rows[index], cells, usize::from(cell), namer)
    }
}

/// Adds rows without marks, as far as that of this index.
fn add_rows(
    alloc: Global,
    rows: &mut Vec<Vec<Option<Place>>>,
    index: usize,
) -> Result<(), AllocError>
    ensures within { OnOk result (index < length rows.new.items) }
    ensures same { (i c : ℕ) → mark_at rows.new.items i c ≡ mark_at rows.old.items i c }
{
    while rows.len() <= index {
        rows.push(Vec::new(alloc))?;
    }
    Ok(())
}

/// Sets the mark of a cell in the row of a page of so many cells.
fn set_mark(
    row: &mut Vec<Option<Place>>,
    cells: usize,
    cell: usize,
    namer: Place,
) -> Result<(), AllocError>
    requires { cell < cells }
    ensures { OnOk result ((c : ℕ) → mark_in row.new.items c ≡ (if cell == c then Some namer else mark_in row.old.items c)) }
{
    if row.len() <= cell {
        row.resize(cells, None)?;
    }
    row[cell] = Some(namer);
    Ok(())
}
