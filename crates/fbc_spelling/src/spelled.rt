//! The bytes that spell a page.

ghost use Rattle.std.specs.Prelude.{◌≡◌, length};
ghost use Rattle.fbc_kinds.specs.DataSpelling.{IsData, SpellsData};
ghost use Rattle.fbc_kinds.specs.Edits.{IsWithinLimits, value_length};
ghost use Rattle.fbc_kinds.specs.HeaderSpelling.{IsFileShape};
ghost use Rattle.fbc_kinds.specs.Spelling.{IsSpelling, listed_length};

use crate::lengths::listed_length;
use fbc_cells::{encode_data, encode_pointer};
use fbc_kinds::{Data, Page, Shape};
use fbc_pages::{encode_header, encode_inventory, encode_tip};

/// Writes the bytes that spell the page, in a file of this shape, over all of `out`, which has the
/// size of a page.
pub fn spell_page(shape: &Shape, page: &Page, out: &mut [u8])
    requires shape { IsFileShape shape.now }
    requires limits { IsWithinLimits shape.now page.now }
    requires length { length out.old ≡ shape.now.size }
    ensures { IsSpelling shape.now page.now out.new }
{
    match page {
        Page::Header(header) => encode_header(header, shape.size, out),
        Page::Inventory(inventory) => encode_inventory(inventory, shape.size, out),
        Page::Tip(tip) => encode_tip(tip, shape.size, out),
        Page::Pointer(pointer) => encode_pointer(pointer, shape.size, out),
        Page::Data(versions) => spell_data(shape, versions, out),
        Page::Blank => out.fill(0),
    }
}

/// A data page, for the values of its own relation.
fn spell_data(shape: &Shape, page: &Data, out: &mut [u8])
    requires shape { IsFileShape shape.now }
    requires limits { IsData shape.now.size (value_length shape.now page.now.relation) page.now }
    requires length { length out.old ≡ shape.now.size }
    ensures { SpellsData shape.now.size (listed_length shape.now page.now.relation) page.now out.new }
{
    let greatest = listed_length(shape, u16::from(page.relation));
    encode_data(page, shape.size, greatest, out);
}
