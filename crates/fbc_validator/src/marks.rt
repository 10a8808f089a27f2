//! Which pages are taken, by the marks of the page inventories.

ghost use Rattle.std.specs.Prelude.{◌≡◌, ◌≤◌};
ghost use Rattle.fbc_kinds.specs.Limits.{IsPageSize, inventory_limit};
ghost use Rattle.fbc_kinds.specs.View.{is_marked};
ghost use Rattle.fbc_validator.specs.Marks.{is_taken_by, mark_of};

use fbc_kinds::Header;
use fbc_reach::{Content, Tally, inventory_page};

/// Whether a page is taken, by what is kept of the page inventory that covers it.
pub(crate) fn is_taken(tally: &Tally, header: &Header, page: u32) -> bool
    requires size { IsPageSize header.now.size }
    requires count { header.now.inventories ≤ inventory_limit }
    ensures { result ≡ is_taken_by tally.now header.now page }
{
    let covered = (header.size - 16) * 8;
    let sequence = page / covered;
    if sequence >= u32::from(header.inventories) {
        return false;
    }
    match tally.get(inventory_page(header.size, sequence as u16)) {
        Some(named) => is_marked(&named.read.content, page % covered),
        None => false,
    }
}

/// Whether a page inventory marks the page at a place as taken.
fn is_marked(content: &Content, place: u32) -> bool
    ensures { result ≡ is_marked (mark_of content.now place) }
{
    match content {
        Content::Inventory { taken, .. } => taken.items().get(place as usize) == Some(&true),
        _ => false,
    }
}
