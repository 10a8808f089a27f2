//! Data pages.

ghost use Rattle.std.specs.Prelude.{◌≡◌, ◌<◌, ◌≤◌, ◌+◌, ◌*◌, ◌-◌, ℕ, false, length as count_of, drop, replicate, slice_index_or, IfOk, OnOk};
ghost use Rattle.std.specs.List.{All};
ghost use Rattle.fbc_kinds.specs.Limits.{IsPageSize, cells};
ghost use Rattle.fbc_kinds.specs.DataSpelling.{IsCell, IsData, SpellsCell, SpellsData, any_piece, broken_cells, broken_data, cells_end, empty_cell, has_unknown_flag, is_bad_cell, piece};
ghost use Rattle.fbc_kinds.specs.Head.{Gives, GivesRule};

use crate::cells::{decode_cell, encode_cell};
use crate::judged::{cell_at, has_bad_cell, has_unknown_flag};
use crate::starts::{bytes_from, read_start};
use fbc_kinds::{Cell, Data, Listed, PageFault, Rule};
use fbc_pages::head::write_head;
use fbc_pages::numbers::is_zeros;
use std::alloc::{AllocError, Global};

/// How many cells a data page has.
fn cells_of(size: u32, greatest: u8) -> usize
    requires { IsPageSize size }
    ensures value { result ≡ cells size greatest }
    ensures room { 16 + (12 + greatest) * result ≤ size }
{
    (size as usize - 16) / (12 + greatest as usize)
}

/// Writes the cells one behind the other, and zeros after them.
fn encode_cells(cells: &[Cell], greatest: u8, out: &mut [u8])
    requires room { (12 + greatest) * count_of cells.now ≤ count_of out.old }
    requires cells { All (IsCell greatest) cells.now }
    ensures cell { (k : ℕ) → k < count_of cells.now → SpellsCell greatest (slice_index_or cells.now k empty_cell) (piece (12 + greatest) k out.new) }
    ensures rest { drop ((12 + greatest) * count_of cells.now) out.new ≡ replicate (count_of out.old - (12 + greatest) * count_of cells.now) 0 }
{
    let width = 12 + greatest as usize;
    out.fill(0);
    for (k, cell) in cells.iter().enumerate() {
        encode_cell(cell, greatest, &mut out[width * k..width * (k + 1)]);
    }
}

/// Writes the one spelling of the page, for values of at most `length` bytes, into `out`, which has
/// the page's size.
pub fn encode_data(page: &Data, size: u32, length: u8, out: &mut [u8])
    requires size { IsPageSize size }
    requires value { length ≤ 200 }
    requires length { count_of out.old ≡ size }
    requires page { IsData size length page.now }
    ensures { SpellsData size length page.now out.new }
{
    encode_cells(page.cells.items(), length, &mut out[16..]);
    write_head(5, page.relation as u16, page.page, page.sequence, out);
}

/// Whether the cells and what follows them break no rule; else the first that they break.
fn check_cells(bytes: &[u8], size: u32, greatest: u8) -> Result<(), Rule>
    requires size { IsPageSize size }
    requires length { count_of bytes.now ≡ size }
    ensures flags { OnOk result (any_piece has_unknown_flag (12 + greatest) (cells size greatest) (drop 16 bytes.now) ≡ false) }
    ensures fair { OnOk result (any_piece (is_bad_cell greatest) (12 + greatest) (cells size greatest) (drop 16 bytes.now) ≡ false) }
    ensures rest { OnOk result (drop (cells_end size greatest) bytes.now ≡ replicate (size - cells_end size greatest) 0) }
    ensures exact { GivesRule result (broken_cells size greatest bytes.now) }
{
    let count = cells_of(size, greatest);
    let width = 12 + greatest as usize;
    let body = bytes_from(bytes, 16);
    if has_unknown_flag(body, width, count) {
        return Err(Rule::Flag);
    }
    if has_bad_cell(body, greatest, count) {
        return Err(Rule::Cell);
    }
    if !is_zeros(bytes_from(bytes, 16 + width * count)) {
        return Err(Rule::Rest);
    }
    Ok(())
}

/// Reads cells that break no rule.
fn read_cells(
    alloc: Global,
    bytes: &[u8],
    greatest: u8,
    count: usize,
) -> Result<Vec<Cell>, AllocError>
    requires value { greatest ≤ 200 }
    requires room { (12 + greatest) * count ≤ count_of bytes.now }
    requires flags { any_piece has_unknown_flag (12 + greatest) count bytes.now ≡ false }
    requires fair { any_piece (is_bad_cell greatest) (12 + greatest) count bytes.now ≡ false }
    ensures count { IfOk result (λ cells. count_of cells.items ≡ count) }
    ensures fits { IfOk result (λ cells. All (IsCell greatest) cells.items) }
    ensures cell { IfOk result (λ cells. (k : ℕ)
        → k < count
        → SpellsCell greatest (slice_index_or cells.items k empty_cell) (piece (12 + greatest) k bytes.now)) }
{
    let mut cells = Vec::with_capacity(alloc, count)?;
    for k in 0..count {
        let cell = decode_cell(greatest, cell_at(bytes, 12 + greatest as usize, k));
        cells.push(cell)?;
    }
    Ok(cells)
}

/// Reads the data page of number `page`, of `size` bytes, for values of at most `length` bytes.
///
/// # Errors
///
/// `Damaged` names the first rule that the bytes break, exactly where they spell no such page.
pub fn decode_data(
    alloc: Global,
    size: u32,
    length: u8,
    page: u32,
    bytes: &[u8],
) -> Result<Data, PageFault>
    requires size { IsPageSize size }
    requires value { length ≤ 200 }
    requires length { count_of bytes.now ≡ size }
    ensures page { IfOk result (λ data_page. data_page.page ≡ page) }
    ensures found { IfOk result (λ data_page. SpellsData size length data_page bytes.now) }
    ensures exact { Gives result (broken_data size length page bytes.now) }
{
    let start = read_start(5, page, bytes)?;
    check_cells(bytes, size, length)?;
    let cells = read_cells(alloc, bytes_from(bytes, 16), length, cells_of(size, length))?;
    Ok(Data {
        page,
        relation: start.relation,
        sequence: start.sequence,
        cells: Listed::new(cells),
    })
}
