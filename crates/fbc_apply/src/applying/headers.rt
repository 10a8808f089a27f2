//! Edits of the header.

ghost use Rattle.std.specs.Prelude.{◌≡◌, ◌≤◌, IfOk, IsSome, OnErr, length};
ghost use Rattle.fbc_kinds.specs.Limits.{IsPageSize, tip_limit};
ghost use Rattle.fbc_kinds.specs.Edits.{IsShape, IsWithinLimits, Tried, inventory_added, pointed, is_next, next_set, pointer_added, takes_page, tip_added};

use fbc_kinds::{Listed, Page, Relation, Shape};
use std::alloc::{AllocError, Global};

/// Whether a header with that many transaction inventory pages may have this next number.
fn is_next(size: u32, tips: usize, next: u32) -> bool
    requires size { IsPageSize size }
    requires tips { tips ≤ tip_limit }
    ensures { result ≡ is_next size tips next }
{
    let numbers = 4 * (size - 16);
    1 <= next && next <= 64 * (size - 16) && next <= numbers * tips as u32
}

/// Whether there is room for one more number of a page, which is not the header.
fn takes_page(limit: usize, pages: &Listed<u32>, number: u32) -> bool
    ensures { result ≡ takes_page limit pages.now number }
{
    number != 0 && pages.len() < limit
}

/// Sets the header's next transaction number.
pub(super) fn set_next(shape: &Shape, next: u32, page: &mut Page) -> bool
    requires shape { IsShape shape.now }
    requires limits { IsWithinLimits shape.now page.old }
    ensures { Tried result (next_set shape.now next page.old) page.old page.new }
{
    let Page::Header(header) = page else {
        return false;
    };
    if !is_next(shape.size, header.tips.len(), next) {
        return false;
    }
    header.next = next;
    true
}

/// Adds a transaction inventory page to the header.
pub(super) fn add_tip(number: u32, page: &mut Page) -> Result<bool, AllocError>
    ensures ok { IfOk result (λ fits. Tried fits (tip_added number page.old) page.old page.new) }
    ensures fits { OnErr result (IsSome (tip_added number page.old)) }
    ensures err { OnErr result (page.new ≡ page.old) }
{
    let Page::Header(header) = page else {
        return Ok(false);
    };
    if !takes_page(16, &header.tips, number) {
        return Ok(false);
    }
    header.tips.push(number)?;
    Ok(true)
}

/// The relation with one more pointer page; `None` where there is no room for one.
fn with_pointer(
    alloc: Global,
    entry: &Relation,
    number: u32,
) -> Result<Option<Relation>, AllocError>
    ensures ok { IfOk result (λ after. after ≡ pointed entry.now number) }
    ensures fits { OnErr result (IsSome (pointed entry.now number)) }
{
    if !takes_page(4, &entry.pointers, number) {
        return Ok(None);
    }
    let mut pointers = entry.pointers.copied(alloc)?;
    pointers.push(number)?;
    Ok(Some(Relation {
        name: entry.name,
        length: entry.length,
        pointers,
    }))
}

/// Adds a pointer page to a relation of the header.
pub(super) fn add_pointer(
    alloc: Global,
    relation: u8,
    number: u32,
    page: &mut Page,
) -> Result<bool, AllocError>
    ensures ok { IfOk result (λ fits. Tried fits (pointer_added relation number page.old) page.old page.new) }
    ensures fits { OnErr result (IsSome (pointer_added relation number page.old)) }
    ensures err { OnErr result (page.new ≡ page.old) }
{
    let Page::Header(header) = page else {
        return Ok(false);
    };
    let at = relation as usize;
    if at >= header.relations.len() {
        return Ok(false);
    }
    let Some(entry) = with_pointer(alloc, &header.relations.items()[at], number)? else {
        return Ok(false);
    };
    header.relations.set(at, entry);
    Ok(true)
}

/// Counts one more page inventory page in the header.
pub(super) fn add_inventory(page: &mut Page) -> bool
    ensures { Tried result (inventory_added page.old) page.old page.new }
{
    let Page::Header(header) = page else {
        return false;
    };
    if header.inventories >= 64 {
        return false;
    }
    header.inventories += 1;
    true
}
