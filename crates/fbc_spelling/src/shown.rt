//! What the bytes in a page's place show.

ghost use Rattle.std.specs.Prelude.{◌≡◌, length, replicate, IfOk};
ghost use Rattle.fbc_kinds.specs.Edits.{IsWithinLimits};
ghost use Rattle.fbc_kinds.specs.File.{ShowsPage};
ghost use Rattle.fbc_kinds.specs.Head.{Gives, relation_in};
ghost use Rattle.fbc_kinds.specs.HeaderSpelling.{IsFileShape, SpellsHeader};
ghost use Rattle.fbc_kinds.specs.Spelling.{broken_blank, broken_first_page, first_broken_rule, listed_length};
ghost use Rattle.fbc_kinds.specs.declared.pages.Page.TheVariants as kind;
ghost use Rattle.fbc_kinds.specs.Limits.{IsPageSize};
ghost use Rattle.fbc_kinds.specs.DataSpelling.{SpellsData, broken_data};

use crate::lengths::listed_length;
use fbc_cells::{decode_data, decode_pointer};
use fbc_kinds::{Data, Header, Page, PageFault, Rule, Shape};
use fbc_pages::numbers::{is_zeros, read_u16};
use fbc_pages::{decode_header, decode_inventory, decode_tip};
use std::alloc::Global;

/// The page that these bytes show under this number, judged by the kind that they name.
///
/// # Errors
///
/// `Damaged` names the first rule that the bytes break, exactly where they show no page.
pub fn page_shown(
    alloc: Global,
    shape: &Shape,
    number: u32,
    bytes: &[u8],
) -> Result<Page, PageFault>
    requires shape { IsFileShape shape.now }
    requires length { length bytes.now ≡ shape.now.size }
    ensures found { IfOk result (λ page. ShowsPage shape.now number bytes.now page) }
    ensures limits { IfOk result (λ page. IsWithinLimits shape.now page) }
    ensures exact { Gives result (first_broken_rule shape.now number bytes.now) }
{
    let size = shape.size;
    match bytes[0] {
        1 => Ok(Page::Header(first_page(alloc, size, number, bytes)?)),
        2 => Ok(Page::Inventory(decode_inventory(alloc, size, number, bytes)?)),
        3 => Ok(Page::Tip(decode_tip(alloc, size, number, bytes)?)),
        4 => Ok(Page::Pointer(decode_pointer(alloc, size, number, bytes)?)),
        5 => Ok(Page::Data(data_page(alloc, shape, number, bytes)?)),
        _ => blank_page(bytes),
    }
}

/// The header, which is page 0 alone.
fn first_page(alloc: Global, size: u32, number: u32, bytes: &[u8]) -> Result<Header, PageFault>
    requires size { IsPageSize size }
    requires length { length bytes.now ≡ size }
    ensures number { IfOk result (λ _. number ≡ 0) }
    ensures found { IfOk result (λ header. SpellsHeader size header bytes.now) }
    ensures exact { Gives result (broken_first_page size number bytes.now) }
{
    if number != 0 {
        return Err(PageFault::Damaged { rule: Rule::Kind });
    }
    decode_header(alloc, size, bytes)
}

/// A data page, for the values of the relation that it names itself.
fn data_page(alloc: Global, shape: &Shape, number: u32, bytes: &[u8]) -> Result<Data, PageFault>
    requires shape { IsFileShape shape.now }
    requires length { length bytes.now ≡ shape.now.size }
    ensures number { IfOk result (λ page. page.page ≡ number) }
    ensures found { IfOk result (λ page. SpellsData shape.now.size (listed_length shape.now page.relation) page bytes.now) }
    ensures exact { Gives result (broken_data shape.now.size (listed_length shape.now (relation_in bytes.now)) number bytes.now) }
{
    let greatest = listed_length(shape, read_u16(bytes, 2));
    decode_data(alloc, shape.size, greatest, number, bytes)
}

/// A page without a kind is blank.
fn blank_page(bytes: &[u8]) -> Result<Page, PageFault>
    ensures found { IfOk result (λ page. (page ≡ kind.Blank) × (bytes.now ≡ replicate (length bytes.now) 0)) }
    ensures exact { Gives result (broken_blank bytes.now) }
{
    if !is_zeros(bytes) {
        return Err(PageFault::Damaged { rule: Rule::Kind });
    }
    Ok(Page::Blank)
}
