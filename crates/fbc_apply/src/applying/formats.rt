//! The empty pages.

ghost use Rattle.std.specs.Prelude.{◌≡◌, IfOk, IsSome, OnErr, Some};
ghost use Rattle.fbc_kinds.specs.Edits.{IsShape, data_formatted, formatted, inventory_formatted, own_marks, pointer_formatted, tip_formatted};
ghost use Rattle.fbc_kinds.specs.Limits.{IsPageSize, inventory_bits, slots, tip_numbers};

use super::inventories::page_place;
use super::records::empty_cell;
use crate::fitting::{cells, covers, slots, value_length};
use fbc_kinds::{Data, Inventory, Listed, Page, Pointer, Shape, State, Tip};
use std::alloc::{AllocError, Global};

/// The marks of a page inventory that shows only itself as taken, where it covers itself.
fn own_marks(
    alloc: Global,
    size: u32,
    number: u32,
    sequence: u32,
) -> Result<Listed<bool>, AllocError>
    requires { IsPageSize size }
    ensures { IfOk result (λ marks. marks ≡ own_marks size number sequence) }
{
    let count = (size as usize - 16) * 8;
    let mut marks = Listed::new(vec![in alloc; false; count]?);
    if covers(size, sequence, number) {
        marks.set(page_place(size, number), true);
    }
    Ok(marks)
}

/// An empty page inventory.
fn format_inventory(
    alloc: Global,
    size: u32,
    page: u32,
    sequence: u32,
) -> Result<Option<Page>, AllocError>
    requires { IsPageSize size }
    ensures ok { IfOk result (λ page_after. page_after ≡ inventory_formatted size page sequence) }
    ensures fits { OnErr result (IsSome (inventory_formatted size page sequence)) }
{
    if sequence == 0 && page != 0 {
        return Ok(None);
    }
    let taken = own_marks(alloc, size, page, sequence)?;
    Ok(Some(Page::Inventory(Inventory {
        page,
        sequence,
        taken,
    })))
}

/// An empty transaction inventory page.
fn format_tip(alloc: Global, size: u32, page: u32, sequence: u32) -> Result<Page, AllocError>
    requires { IsPageSize size }
    ensures { IfOk result (λ page_after. Some page_after ≡ tip_formatted size page sequence) }
{
    let states = Listed::new(vec![in alloc; State::Active; 4 * (size as usize - 16)]?);
    Ok(Page::Tip(Tip {
        page,
        sequence,
        states,
    }))
}

/// An empty pointer page.
fn format_pointer(
    alloc: Global,
    shape: &Shape,
    page: u32,
    relation: u8,
    sequence: u32,
) -> Result<Option<Page>, AllocError>
    requires { IsShape shape.now }
    ensures ok { IfOk result (λ page_after. page_after ≡ pointer_formatted shape.now page relation sequence) }
    ensures fits { OnErr result (IsSome (pointer_formatted shape.now page relation sequence)) }
{
    if relation >= shape.count {
        return Ok(None);
    }
    let slots = Listed::new(vec![in alloc; 0; slots(shape.size) as usize]?);
    Ok(Some(Page::Pointer(Pointer {
        page,
        relation,
        sequence,
        slots,
    })))
}

/// An empty data page.
fn format_data(
    alloc: Global,
    shape: &Shape,
    page: u32,
    relation: u8,
    sequence: u32,
) -> Result<Option<Page>, AllocError>
    requires { IsShape shape.now }
    ensures ok { IfOk result (λ page_after. page_after ≡ data_formatted shape.now page relation sequence) }
    ensures fits { OnErr result (IsSome (data_formatted shape.now page relation sequence)) }
{
    if relation >= shape.count {
        return Ok(None);
    }
    let count = cells(shape.size, value_length(shape, relation)) as usize;
    let cells = Listed::new(vec![in alloc; empty_cell(); count]?);
    Ok(Some(Page::Data(Data {
        page,
        relation,
        sequence,
        cells,
    })))
}

/// The empty page of a kind; `None` where the edit does not fit.
pub(super) fn format(
    alloc: Global,
    shape: &Shape,
    kind: u8,
    page: u32,
    relation: u8,
    sequence: u32,
) -> Result<Option<Page>, AllocError>
    requires { IsShape shape.now }
    ensures ok { IfOk result (λ page_after. page_after ≡ formatted shape.now kind page relation sequence) }
    ensures fits { OnErr result (IsSome (formatted shape.now kind page relation sequence)) }
{
    match kind {
        2 => format_inventory(alloc, shape.size, page, sequence),
        3 => Ok(Some(format_tip(alloc, shape.size, page, sequence)?)),
        4 => format_pointer(alloc, shape, page, relation, sequence),
        5 => format_data(alloc, shape, page, relation, sequence),
        _ => Ok(None),
    }
}
