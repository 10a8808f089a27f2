//! Makes a new file.

ghost use Rattle.std.specs.Prelude.{◌≡◌, ◌*◌, ◌≤◌, ◌<◌, Err, length, is_err, IfOk, OnOk, IsTrue};
ghost use Rattle.fbc_kinds.specs.Limits.{IsPageSize};
ghost use Rattle.fbc_outside.specs.Frames.{IsFaithful};
ghost use Rattle.fbc_files.specs.Creating.{AreNewPages, HoldsIfEmpty, IsNewFile, IsNewPage, IsPagePut, IsPagePutOrNot, IsPartOfNewFile, IsSpellingOf, ShowsSome, ShowsWritten};
ghost use Rattle.fbc_files.specs.NewPages.{AreNewRelations, page_count};

use crate::faults::CreateFault;
use crate::new_pages::new_pages;
use crate::relations::NewRelation;
use fbc_cells::encode_pointer;
use fbc_kinds::Page;
use fbc_outside::{Device, Failed};
use fbc_pages::{encode_header, encode_inventory, encode_tip};
use std::alloc::Global;

/// Makes a file of pages of `size` bytes with these relations, over a device that is empty. It
/// answers how many pages the file has. The header is written last, so a file whose making was cut
/// off is not recognised.
///
/// # Errors
///
/// `Memory` leaves the device as it was. After `Device` the first of the writes stand; the one that
/// failed stands too or does not.
pub fn create_file<D: Device>(
    alloc: Global,
    device: &mut D,
    size: u32,
    relations: &[NewRelation],
) -> Result<u32, CreateFault>
    requires size { IsPageSize size }
    requires relations { AreNewRelations relations.now }
    requires reach { 262144 ≤ D.reach device.old }
    ensures count { IfOk result (λ pages. pages ≡ page_count relations.now) }
    ensures made { OnOk result (HoldsIfEmpty (IsNewFile size relations.now) (D.bytes device.old) (D.bytes device.new)) }
    ensures part { HoldsIfEmpty (IsPartOfNewFile size relations.now) (D.bytes device.old) (D.bytes device.new) }
    ensures memory_bytes { result ≡ Err CreateFault.Memory → D.bytes device.new ≡ D.bytes device.old }
    ensures memory_faults { result ≡ Err CreateFault.Memory → D.faults device.new ≡ D.faults device.old }
    ensures device { IsFaithful D.reach D.faults (result ≡ Err CreateFault.Device) device.old device.new }
{
    let pages = new_pages(alloc, size, relations)?;
    let mut image = vec![in alloc; 0; size as usize]?;
    write_new_pages(device, size, &pages, &mut image)?;
    Ok(pages.len() as u32)
}

/// Writes the pages of a new file: page 1 first, then those behind it, and page 0 last.
fn write_new_pages<D: Device>(
    device: &mut D,
    size: u32,
    pages: &[Page],
    image: &mut [u8],
) -> Result<(), Failed>
    requires size { IsPageSize size }
    requires pages { AreNewPages size pages.now }
    requires image { length image.old ≡ size }
    requires reach { 262144 ≤ D.reach device.old }
    ensures ok { OnOk result (HoldsIfEmpty (ShowsWritten size pages.now (length pages.now)) (D.bytes device.old) (D.bytes device.new)) }
    ensures some { HoldsIfEmpty (ShowsSome size pages.now) (D.bytes device.old) (D.bytes device.new) }
    ensures device { IsFaithful D.reach D.faults (IsTrue (is_err result)) device.old device.new }
{
    for number in 1..pages.len() {
        write_page(device, size, number, &pages[number], image)?;
    }
    write_page(device, size, 0, &pages[0], image)
}

/// Writes one page in its place.
fn write_page<D: Device>(
    device: &mut D,
    size: u32,
    number: usize,
    page: &Page,
    image: &mut [u8],
) -> Result<(), Failed>
    requires size { IsPageSize size }
    requires number { number < 11 }
    requires page { IsNewPage size page.now }
    requires image { length image.old ≡ size }
    requires reach { 262144 ≤ D.reach device.old }
    ensures ok { OnOk result (IsPagePut size number page.now (D.bytes device.old) (D.bytes device.new)) }
    ensures some { IsPagePutOrNot size number page.now (D.bytes device.old) (D.bytes device.new) }
    ensures device { IsFaithful D.reach D.faults (IsTrue (is_err result)) device.old device.new }
{
    encode_page(page, size, image);
    device.write_at(number as u64 * u64::from(size), image)
}

/// Writes the bytes of a page of a new file.
fn encode_page(page: &Page, size: u32, out: &mut [u8])
    requires size { IsPageSize size }
    requires page { IsNewPage size page.now }
    requires length { length out.old ≡ size }
    ensures { IsSpellingOf size page.now out.new }
{
    match page {
        Page::Header(header) => encode_header(header, size, out),
        Page::Inventory(inventory) => encode_inventory(inventory, size, out),
        Page::Tip(tip) => encode_tip(tip, size, out),
        Page::Pointer(pointer) => encode_pointer(pointer, size, out),
        Page::Data(_) => unreachable!(),
        Page::Blank => out.fill(0),
    }
}
