//! The bytes of pages, and the fresh file by its bytes.

ghost use Rattle.std.specs.Prelude.{◌≡◌, ◌↔◌, ◌+◌, ◌*◌, ◌≤◌, length, IsTrue, IfOk};
ghost use Rattle.fbc_console.specs.FreshFile.{fresh_header, fresh_inventory, fresh_tip, fresh_pointer};
ghost use Rattle.fbc_console.specs.Images.{IsFreshFile, page_at};
ghost use Rattle.fbc_kinds.specs.HeaderSpelling.{IsHeader, SpellsHeader};
ghost use Rattle.fbc_kinds.specs.InventorySpelling.{IsInventory, SpellsInventory};
ghost use Rattle.fbc_kinds.specs.TipSpelling.{IsTip, SpellsTip};
ghost use Rattle.fbc_kinds.specs.PointerSpelling.{IsPointer, SpellsPointer};
ghost use Rattle.fbc_kinds.specs.DataSpelling.{IsData, SpellsData};

use crate::store::{fresh_header, fresh_inventory, fresh_pointer, fresh_tip};
use crate::writes::{PAGE_SIZE, PageImage};
use fbc_cells::{encode_data, encode_pointer, one_pointer};
use fbc_kinds::{Data, Header, Inventory, Pointer, Tip};
use fbc_pages::{encode_header, encode_inventory, encode_tip, one_header, one_inventory, one_tip};
use std::alloc::{AllocError, Global};

/// The greatest length of a value of the one relation.
const VALUE_LENGTH: u8 = 10;

/// The image of the header.
pub fn image_of_header(page: &Header) -> PageImage
    requires { IsHeader 1024 page.now }
    ensures page { result.page ≡ 0 }
    ensures bytes { SpellsHeader 1024 page.now result.bytes }
{
    let mut bytes = [0; PAGE_SIZE];
    encode_header(page, 1024, &mut bytes);
    PageImage { page: 0, bytes }
}

/// The image of a page inventory.
pub fn image_of_inventory(page: &Inventory) -> PageImage
    requires { IsInventory 1024 page.now }
    ensures page { result.page ≡ page.now.page }
    ensures bytes { SpellsInventory 1024 page.now result.bytes }
{
    let mut bytes = [0; PAGE_SIZE];
    encode_inventory(page, 1024, &mut bytes);
    PageImage {
        page: page.page,
        bytes,
    }
}

/// The image of a transaction inventory page.
pub fn image_of_tip(page: &Tip) -> PageImage
    requires { IsTip 1024 page.now }
    ensures page { result.page ≡ page.now.page }
    ensures bytes { SpellsTip 1024 page.now result.bytes }
{
    let mut bytes = [0; PAGE_SIZE];
    encode_tip(page, 1024, &mut bytes);
    PageImage {
        page: page.page,
        bytes,
    }
}

/// The image of a pointer page.
pub fn image_of_pointer(page: &Pointer) -> PageImage
    requires { IsPointer 1024 page.now }
    ensures page { result.page ≡ page.now.page }
    ensures bytes { SpellsPointer 1024 page.now result.bytes }
{
    let mut bytes = [0; PAGE_SIZE];
    encode_pointer(page, 1024, &mut bytes);
    PageImage {
        page: page.page,
        bytes,
    }
}

/// The image of a data page.
pub fn image_of_data(page: &Data) -> PageImage
    requires { IsData 1024 10 page.now }
    ensures page { result.page ≡ page.now.page }
    ensures bytes { SpellsData 1024 10 page.now result.bytes }
{
    let mut bytes = [0; PAGE_SIZE];
    encode_data(page, 1024, VALUE_LENGTH, &mut bytes);
    PageImage {
        page: page.page,
        bytes,
    }
}

/// Whether these are the bytes of the fresh file.
pub fn is_fresh_file(alloc: Global, bytes: &[u8]) -> Result<bool, AllocError>
    ensures { IfOk result (λ fresh. IsTrue fresh ↔ IsFreshFile bytes.now) }
{
    if bytes.len() != 4 * PAGE_SIZE {
        return Ok(false);
    }
    if !spells_header(alloc, page_of(bytes, 0))? {
        return Ok(false);
    }
    if !spells_inventory(alloc, page_of(bytes, 1))? {
        return Ok(false);
    }
    if !spells_tip(alloc, page_of(bytes, 2))? {
        return Ok(false);
    }
    if !spells_pointer(alloc, page_of(bytes, 3))? {
        return Ok(false);
    }
    Ok(true)
}

/// The bytes of the page with this number.
fn page_of(bytes: &[u8], page: usize) -> &[u8]
    requires { (page + 1) * 1024 ≤ length bytes.now }
    ensures { result.now ≡ page_at bytes.now page }
{
    &bytes[page * PAGE_SIZE..(page + 1) * PAGE_SIZE]
}

fn spells_header(alloc: Global, bytes: &[u8]) -> Result<bool, AllocError>
    ensures { IfOk result (λ fresh. IsTrue fresh ↔ SpellsHeader 1024 fresh_header bytes.now) }
{
    one_header();
    let image = image_of_header(&fresh_header(alloc)?);
    Ok(is_same(bytes, &image.bytes))
}

fn spells_inventory(alloc: Global, bytes: &[u8]) -> Result<bool, AllocError>
    ensures { IfOk result (λ fresh. IsTrue fresh ↔ SpellsInventory 1024 fresh_inventory bytes.now) }
{
    one_inventory();
    let image = image_of_inventory(&fresh_inventory(alloc)?);
    Ok(is_same(bytes, &image.bytes))
}

fn spells_tip(alloc: Global, bytes: &[u8]) -> Result<bool, AllocError>
    ensures { IfOk result (λ fresh. IsTrue fresh ↔ SpellsTip 1024 fresh_tip bytes.now) }
{
    one_tip();
    let image = image_of_tip(&fresh_tip(alloc)?);
    Ok(is_same(bytes, &image.bytes))
}

fn spells_pointer(alloc: Global, bytes: &[u8]) -> Result<bool, AllocError>
    ensures { IfOk result (λ fresh. IsTrue fresh ↔ SpellsPointer 1024 fresh_pointer bytes.now) }
{
    one_pointer();
    let image = image_of_pointer(&fresh_pointer(alloc)?);
    Ok(is_same(bytes, &image.bytes))
}

/// Whether two runs of bytes are the same.
fn is_same(bytes: &[u8], others: &[u8]) -> bool
    ensures { IsTrue result ↔ (bytes.now ≡ others.now) }
{
    bytes == others
}
