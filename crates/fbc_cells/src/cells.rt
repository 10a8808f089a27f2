//! One cell of a data page.

ghost use Rattle.std.specs.Prelude.{◌≡◌, ◌≤◌, ◌+◌, ◌++◌, length, drop, false};
ghost use Rattle.fbc_kinds.specs.DataSpelling.{IsCell, SpellsCell, flag_code, has_unknown_flag, is_bad_cell};
ghost use Rattle.fbc_kinds.specs.Padding.{padded};
ghost use Rattle.fbc_cells.specs.CellBytes.{cell_front};

use byteorder::{ByteOrder, LittleEndian};
use fbc_kinds::{Cell, Flag, Padded};
use fbc_pages::numbers::{read_u16, read_u32};

/// The byte that stands for a flag.
fn code_of(flag: Flag) -> u8
    ensures { result ≡ flag_code flag }
{
    match flag {
        Flag::Empty => 0,
        Flag::Primary => 1,
        Flag::Deletion => 2,
        Flag::Back => 3,
    }
}

/// Writes the first 12 bytes of a cell whose value has `size` bytes.
fn lay_front(cell: &Cell, size: u8, out: &mut [u8])
    requires room { 12 ≤ length out.old }
    requires size { size ≡ length cell.now.value }
    ensures { out.new ≡ cell_front cell.now ++ drop 12 out.old }
{
    out[0] = code_of(cell.flag);
    out[1] = size;
    LittleEndian::write_u16(&mut out[2..], cell.back_cell);
    LittleEndian::write_u32(&mut out[4..], cell.number);
    LittleEndian::write_u32(&mut out[8..], cell.back_page);
}

/// Writes a text, and zeros after it.
fn lay_padded(text: &[u8], out: &mut [u8])
    requires { length text.now ≤ length out.old }
    ensures { out.new ≡ padded (length out.old) text.now }
{
    out[..text.len()].copy_from_slice(text);
    out[text.len()..].fill(0);
}

/// Writes the one spelling of the cell into `out`, for values of at most `greatest` bytes.
pub(crate) fn encode_cell(cell: &Cell, greatest: u8, out: &mut [u8])
    requires width { length out.old ≡ 12 + greatest }
    requires fits { length cell.now.value ≤ greatest }
    ensures { SpellsCell greatest cell.now out.new }
{
    let text = cell.value.as_bytes();
    lay_front(cell, text.len() as u8, out);
    lay_padded(text, &mut out[12..]);
}

/// The flag that a byte stands for.
fn flag_of(code: u8) -> Flag
    requires { code ≤ 3 }
    ensures { flag_code result ≡ code }
{
    match code {
        0 => Flag::Empty,
        1 => Flag::Primary,
        2 => Flag::Deletion,
        _ => Flag::Back,
    }
}

/// Reads a cell that breaks no rule.
pub(crate) fn decode_cell(greatest: u8, bytes: &[u8]) -> Cell
    requires value { greatest ≤ 200 }
    requires width { length bytes.now ≡ 12 + greatest }
    requires flag { has_unknown_flag bytes.now ≡ false }
    requires fair { is_bad_cell greatest bytes.now ≡ false }
    ensures fits { IsCell greatest result }
    ensures spelled { SpellsCell greatest result bytes.now }
{
    let end = 12 + bytes[1] as usize;
    Cell {
        flag: flag_of(bytes[0]),
        number: read_u32(bytes, 4),
        back_page: read_u32(bytes, 8),
        back_cell: read_u16(bytes, 2),
        value: Padded::new(&bytes[12..end]),
    }
}
