//! Five pages of 4,096 bytes, one of each kind, and how they are read and written again and again.

ghost use Rattle.std.specs.Prelude.{◌≡◌, ◌≤◌, ◌<◌, length, IfOk, OnOk};
ghost use Rattle.fbc_benchmarks.specs.Turns.{HoldsLast, page_in};

use fbc_cells::{decode_data, decode_pointer, encode_data, encode_pointer, one_data, one_pointer};
use fbc_kinds::PageFault;
use fbc_pages::head::write_head;
use fbc_pages::numbers::{write_numbers, write_u32};
use fbc_pages::{
    decode_header, decode_inventory, decode_tip, encode_header, encode_inventory, encode_tip,
    one_header, one_inventory, one_tip,
};
use std::alloc::{AllocError, Global};

/// Bytes of a page.
const SIZE: u32 = 4096;

/// The greatest length of a value in the data page. Its cells of 40 bytes fill the page.
const VALUE: u8 = 28;

/// A relation with four pointer pages, as the header spells it.
const RELATION: &[u8; 36] =
    b"\x0fa_name_of_15_by\x1c\0\x04\0\x03\0\0\0\x05\0\0\0\x06\0\0\0\x07\0\0\0";

/// A value of a record, as a data page spells it.
const CELL: &[u8; 40] = b"\x01\x1c\0\0\x07\0\0\0\0\0\0\0a value of twenty-eight byte";

/// The pages 0 to 4 of a file: a header with all its relations, a page inventory with every page
/// taken, a transaction inventory with all states, a pointer page with every slot used, and a data
/// page full of cells.
pub fn sample_pages(alloc: Global) -> Result<Vec<u8>, AllocError>
    ensures { IfOk result (λ pages. length pages.items ≡ 20480) }
{
    let mut pages = vec![in alloc; 0u8; 20480]?;
    fill_pages(&mut pages);
    Ok(pages)
}

/// Writes the five pages over zeros.
fn fill_pages(pages: &mut [u8])
    requires { length pages.old ≡ 20480 }
{
    fill_header(pages);
    fill_page(2, 1, b"\xff", &mut pages[4096..8192]);
    fill_page(3, 2, b"\xb8", &mut pages[8192..12288]);
    fill_page(4, 3, b"\x04\0\0\0", &mut pages[12288..16384]);
    fill_page(5, 4, CELL, &mut pages[16384..]);
}

/// Writes a header with eight relations and sixteen transaction inventory pages over the first zeros.
pub fn fill_header(out: &mut [u8])
    requires { 400 ≤ length out.old }
{
    write_head(1, 0, 0, 0, out);
    out[16..24].copy_from_slice(b"FBCPAGES");
    write_u32(SIZE, 24, out);
    out[28..48].copy_from_slice(b"\x01\0\0\0\x10\x27\0\0\x08\0\x01\0\x10\0\0\0\0\0\0\0");
    for (entry, letter) in out[48..336].chunks_exact_mut(36).zip(b'a'..=b'h') {
        entry.copy_from_slice(RELATION);
        entry[1] = letter;
    }
    write_numbers(&[2; 16], 336, 16, out);
}

/// Writes the head of the page of this kind and number, and behind it `piece` as often as it fits.
fn fill_page(kind: u8, number: u32, piece: &[u8], out: &mut [u8])
    requires out { 16 ≤ length out.old }
    requires piece { 0 < length piece.now }
{
    write_head(kind, 0, number, 0, out);
    for place in out[16..].chunks_exact_mut(piece.len()) {
        place.copy_from_slice(piece);
    }
}

/// Reads and writes so many pages, the five in turn.
pub fn recode_pages(
    alloc: Global,
    count: u64,
    pages: &[u8],
    out: &mut [u8],
) -> Result<(), PageFault>
    requires pages { length pages.now ≡ 20480 }
    requires out { length out.old ≡ 4096 }
    ensures { OnOk result (HoldsLast count pages.now out.new) }
{
    for turn in 0..count {
        let number = (turn % 5) as u32;
        recode_page(alloc, number, page_of(number, pages), out)?;
    }
    Ok(())
}

/// Copies so many pages, the five in turn.
pub fn copy_pages(count: u64, pages: &[u8], out: &mut [u8])
    requires pages { length pages.now ≡ 20480 }
    requires out { length out.old ≡ 4096 }
    ensures { HoldsLast count pages.now out.new }
{
    for turn in 0..count {
        out.copy_from_slice(page_of((turn % 5) as u32, pages));
    }
}

/// The page of this number.
fn page_of(number: u32, pages: &[u8]) -> &[u8]
    requires number { number < 5 }
    requires pages { length pages.now ≡ 20480 }
    ensures length { length result.now ≡ 4096 }
    ensures page { result.now ≡ page_in number pages.now }
{
    let at = number as usize * 4096;
    &pages[at..at + 4096]
}

/// Reads the page of this number and writes it again: the bytes come out as they went in.
fn recode_page(alloc: Global, number: u32, bytes: &[u8], out: &mut [u8]) -> Result<(), PageFault>
    requires bytes { length bytes.now ≡ 4096 }
    requires out { length out.old ≡ 4096 }
    ensures { OnOk result (out.new ≡ bytes.now) }
{
    match number {
        0 => recode_header(alloc, bytes, out),
        1 => recode_inventory(alloc, bytes, out),
        2 => recode_tip(alloc, bytes, out),
        3 => recode_pointer(alloc, bytes, out),
        _ => recode_data(alloc, bytes, out),
    }
}

fn recode_header(alloc: Global, bytes: &[u8], out: &mut [u8]) -> Result<(), PageFault>
    requires bytes { length bytes.now ≡ 4096 }
    requires out { length out.old ≡ 4096 }
    ensures { OnOk result (out.new ≡ bytes.now) }
{
    let header = decode_header(alloc, SIZE, bytes)?;
    encode_header(&header, SIZE, out);
    one_header();
    Ok(())
}

fn recode_inventory(alloc: Global, bytes: &[u8], out: &mut [u8]) -> Result<(), PageFault>
    requires bytes { length bytes.now ≡ 4096 }
    requires out { length out.old ≡ 4096 }
    ensures { OnOk result (out.new ≡ bytes.now) }
{
    let inventory = decode_inventory(alloc, SIZE, 1, bytes)?;
    encode_inventory(&inventory, SIZE, out);
    one_inventory();
    Ok(())
}

fn recode_tip(alloc: Global, bytes: &[u8], out: &mut [u8]) -> Result<(), PageFault>
    requires bytes { length bytes.now ≡ 4096 }
    requires out { length out.old ≡ 4096 }
    ensures { OnOk result (out.new ≡ bytes.now) }
{
    let tip = decode_tip(alloc, SIZE, 2, bytes)?;
    encode_tip(&tip, SIZE, out);
    one_tip();
    Ok(())
}

fn recode_pointer(alloc: Global, bytes: &[u8], out: &mut [u8]) -> Result<(), PageFault>
    requires bytes { length bytes.now ≡ 4096 }
    requires out { length out.old ≡ 4096 }
    ensures { OnOk result (out.new ≡ bytes.now) }
{
    let pointer = decode_pointer(alloc, SIZE, 3, bytes)?;
    encode_pointer(&pointer, SIZE, out);
    one_pointer();
    Ok(())
}

fn recode_data(alloc: Global, bytes: &[u8], out: &mut [u8]) -> Result<(), PageFault>
    requires bytes { length bytes.now ≡ 4096 }
    requires out { length out.old ≡ 4096 }
    ensures { OnOk result (out.new ≡ bytes.now) }
{
    let data = decode_data(alloc, SIZE, VALUE, 4, bytes)?;
    encode_data(&data, SIZE, VALUE, out);
    one_data();
    Ok(())
}
