//! Which cells of a data page are damaged.

ghost use Rattle.std.specs.Prelude.{◌≡◌, ◌≤◌, ◌<◌, ◌+◌, ◌*◌, length, false};
ghost use Rattle.fbc_kinds.specs.DataSpelling.{any_piece, has_bad_length, has_stray_back, has_unknown_flag, is_bad_cell, is_bad_version, piece};

use fbc_pages::numbers::is_zeros;

/// The bytes of the cell at `k`, of those that follow one another.
pub(crate) fn cell_at(cells: &[u8], width: usize, k: usize) -> &[u8]
    requires { width * k + width ≤ length cells.now }
    ensures { result.now ≡ piece width k cells.now }
{
    let start = width * k;
    &cells[start..start + width]
}

/// Whether one of the first cells has an unknown flag.
pub(crate) fn has_unknown_flag(cells: &[u8], width: usize, count: usize) -> bool
    requires width { 0 < width }
    requires room { width * count ≤ length cells.now }
    ensures { result ≡ any_piece has_unknown_flag width count cells.now }
{
    for k in 0..count {
        if is_unknown(cell_at(cells, width, k)) {
            return true;
        }
    }
    false
}

fn is_unknown(cell: &[u8]) -> bool
    requires { 0 < length cell.now }
    ensures { result ≡ has_unknown_flag cell.now }
{
    cell[0] > 3
}

/// Whether one of the first cells is bad.
pub(crate) fn has_bad_cell(cells: &[u8], greatest: u8, count: usize) -> bool
    requires { (12 + greatest) * count ≤ length cells.now }
    ensures { result ≡ any_piece (is_bad_cell greatest) (12 + greatest) count cells.now }
{
    let width = 12 + greatest as usize;
    for k in 0..count {
        if is_bad_cell(greatest, cell_at(cells, width, k)) {
            return true;
        }
    }
    false
}

/// Whether an empty cell is not all zeros, or a version is bad.
fn is_bad_cell(greatest: u8, cell: &[u8]) -> bool
    requires { length cell.now ≡ 12 + greatest }
    ensures { result ≡ is_bad_cell greatest cell.now }
{
    if cell[0] == 0 {
        return !is_zeros(cell);
    }
    is_bad_version(greatest, cell)
}

fn is_bad_version(greatest: u8, cell: &[u8]) -> bool
    requires { length cell.now ≡ 12 + greatest }
    ensures { result ≡ is_bad_version greatest cell.now }
{
    if has_bad_length(greatest, cell) {
        return true;
    }
    let end = 12 + cell[1] as usize;
    is_zeros(&cell[4..8]) || !is_zeros(&cell[end..]) || has_stray_back(cell)
}

fn has_bad_length(greatest: u8, cell: &[u8]) -> bool
    requires { 12 ≤ length cell.now }
    ensures { result ≡ has_bad_length greatest cell.now }
{
    if cell[0] == 2 {
        return cell[1] != 0;
    }
    cell[1] == 0 || cell[1] > greatest
}

fn has_stray_back(cell: &[u8]) -> bool
    requires { 12 ≤ length cell.now }
    ensures { result ≡ has_stray_back cell.now }
{
    is_zeros(&cell[8..12]) && !is_zeros(&cell[2..4])
}
