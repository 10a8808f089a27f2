//! The pages of a planned file, made one after the other in the memory of one page.
//!
//! Every cell of a data page is used. Of each four data pages the last holds the older versions of
//! the records of the third, and the others have records with one version each.

ghost use Rattle.std.specs.Prelude.{◌≡◌, ◌≤◌, ◌<◌, length, IfOk};
ghost use Rattle.fbc_kinds.specs.HeaderSpelling.{IsFileShape};
ghost use Rattle.fbc_kinds.specs.Edits.{IsWithinLimits, value_length};
ghost use Rattle.fbc_kinds.specs.Limits.{IsPageSize};
ghost use Rattle.fbc_benchmarks.specs.Plans.{AreTakenFirst, IsPlan};

use crate::plans::{FIRST_DATA, FIRST_POINTER, INVENTORY, Plan, TIP, TRANSACTIONS, covered, slots};
use anyhow::Result;
use fbc_apply::apply;
use fbc_cells::{encode_data, encode_pointer};
use fbc_kinds::{ApplyFault, Cell, Edit, Flag, Inventory, Listed, Page, Shape, State, Value};
use fbc_pages::{encode_header, encode_inventory, encode_tip};
use std::alloc::{AllocError, Global};
use std::io::Write;

/// What a transaction inventory page begins with.
const TIP_KIND: u8 = 3;

/// What a pointer page begins with.
const POINTER_KIND: u8 = 4;

/// What a data page begins with.
const DATA_KIND: u8 = 5;

/// The value of each version.
const VALUE: &[u8; 28] = b"a value of twenty-eight byte";

/// Writes the file, and answers how many pages it has.
pub fn write_file<W: Write>(alloc: Global, plan: &Plan, out: &mut W) -> Result<u32>
    requires { IsPlan plan.now }
{
    let pages = plan.pages();
    let mut image = vec![in alloc; 0u8; plan.shape.size as usize]?;
    for number in 0..pages {
        spell_page(alloc, plan, number, &mut image)?;
        out.write_all(&image)?;
    }
    Ok(pages)
}

/// Writes the bytes of the page of this number.
fn spell_page(alloc: Global, plan: &Plan, number: u32, out: &mut [u8]) -> Result<(), ApplyFault>
    requires plan { IsPlan plan.now }
    requires length { length out.old ≡ plan.now.shape.size }
{
    if number == 0 {
        out.fill(0);
        plan.write_header(out);
    } else {
        encode_page(&plan.shape, &page(alloc, plan, number)?, out);
    }
    Ok(())
}

/// The page of this number, which is not the header.
fn page(alloc: Global, plan: &Plan, number: u32) -> Result<Page, ApplyFault>
    requires { IsPlan plan.now }
    ensures { IfOk result (IsWithinLimits plan.now.shape) }
{
    let covered = covered(plan.shape.size);
    match number {
        0..=INVENTORY => inventory_page(alloc, plan, INVENTORY, 0),
        TIP => tip_page(alloc, plan),
        FIRST_POINTER..FIRST_DATA => pointer_page(alloc, plan, number - FIRST_POINTER),
        _ if number < covered => data_page(alloc, plan, number, number - FIRST_DATA),
        _ if number == covered => inventory_page(alloc, plan, number, 1),
        _ => data_page(alloc, plan, number, number - FIRST_DATA - 1),
    }
}

/// Writes the bytes of a page.
fn encode_page(shape: &Shape, page: &Page, out: &mut [u8])
    requires shape { IsFileShape shape.now }
    requires page { IsWithinLimits shape.now page.now }
    requires length { length out.old ≡ shape.now.size }
{
    match page {
        Page::Header(header) => encode_header(header, shape.size, out),
        Page::Inventory(inventory) => encode_inventory(inventory, shape.size, out),
        Page::Tip(tip) => encode_tip(tip, shape.size, out),
        Page::Pointer(pointer) => encode_pointer(pointer, shape.size, out),
        Page::Data(data) => {
            encode_data(data, shape.size, value_length(shape, data.relation), out);
        }
        Page::Blank => out.fill(0),
    }
}

/// The greatest length of a relation's values.
fn value_length(shape: &Shape, relation: u8) -> u8
    requires { IsFileShape shape.now }
    ensures value { result ≡ value_length shape.now relation }
    ensures limit { result ≤ 200 }
{
    if relation < shape.count {
        shape.lengths[relation as usize]
    } else {
        0
    }
}

/// The page inventory of that sequence, with all pages of the file taken.
fn inventory_page(alloc: Global, plan: &Plan, page: u32, sequence: u32) -> Result<Page, ApplyFault>
    requires { IsPlan plan.now }
    ensures { IfOk result (IsWithinLimits plan.now.shape) }
{
    let covered = covered(plan.shape.size);
    let before = if sequence == 0 { 0 } else { covered };
    let taken = plan.pages().saturating_sub(before).min(covered);
    if page % covered >= taken {
        return Err(ApplyFault::Unfit);
    }
    Ok(Page::Inventory(Inventory {
        page,
        sequence,
        taken: taken_first(alloc, taken as usize, (covered - taken) as usize)?,
    }))
}

/// Marks of which the first are set.
fn taken_first(alloc: Global, taken: usize, free: usize) -> Result<Listed<bool>, AllocError>
    ensures { IfOk result (AreTakenFirst taken free) }
{
    let mut marks = Listed::filled(alloc, true, taken)?;
    marks.add_copies(false, free)?;
    Ok(marks)
}

/// The transaction inventory page, where all transactions are committed.
fn tip_page(alloc: Global, plan: &Plan) -> Result<Page, ApplyFault>
    requires { IsPlan plan.now }
    ensures { IfOk result (IsWithinLimits plan.now.shape) }
{
    let mut page = empty_page(alloc, plan, TIP_KIND, TIP, 0, 0)?;
    for number in 1..=TRANSACTIONS {
        let state = State::Committed;
        edit(alloc, plan, &Edit::Mark { number, state }, &mut page)?;
    }
    Ok(page)
}

/// One of all pointer pages, which names the data pages of its relation.
fn pointer_page(alloc: Global, plan: &Plan, pointer: u32) -> Result<Page, ApplyFault>
    requires plan { IsPlan plan.now }
    requires pointer { pointer < 32 }
    ensures { IfOk result (IsWithinLimits plan.now.shape) }
{
    let slots = slots(plan.shape.size);
    let number = FIRST_POINTER + pointer;
    let relation = (pointer / 4) as u8;
    let mut page = empty_page(alloc, plan, POINTER_KIND, number, relation, pointer % 4)?;
    let first = pointer * slots;
    for slot in 0..plan.data_pages.saturating_sub(first).min(slots) {
        let name = Edit::Name {
            slot,
            page: plan.data_page(first + slot),
        };
        edit(alloc, plan, &name, &mut page)?;
    }
    Ok(page)
}

/// One of all data pages, with a version in each cell. A place past them all is in no relation, and
/// gets no page.
fn data_page(alloc: Global, plan: &Plan, number: u32, place: u32) -> Result<Page, ApplyFault>
    requires { IsPlan plan.now }
    ensures { IfOk result (IsWithinLimits plan.now.shape) }
{
    let of_relation = 4 * slots(plan.shape.size);
    let relation = (place / of_relation).min(8) as u8;
    let mut page = empty_page(
        alloc,
        plan,
        DATA_KIND,
        number,
        relation,
        place % of_relation,
    )?;
    for cell in 0..cells(plan.shape.size) {
        let content = version(plan, place, cell);
        apply(
            alloc,
            &plan.shape,
            &Edit::PutCell { cell, content },
            &mut page,
        )?;
    }
    Ok(page)
}

/// An empty page of that kind, as the first byte of a page numbers the kinds.
fn empty_page(
    alloc: Global,
    plan: &Plan,
    kind: u8,
    page: u32,
    relation: u8,
    sequence: u32,
) -> Result<Page, ApplyFault>
    requires { IsPlan plan.now }
    ensures { IfOk result (IsWithinLimits plan.now.shape) }
{
    let mut empty = Page::Blank;
    let format = Edit::Format {
        kind,
        page,
        relation,
        sequence,
    };
    edit(alloc, plan, &format, &mut empty)?;
    Ok(empty)
}

/// Makes the edit of a page of the file.
fn edit(alloc: Global, plan: &Plan, edit: &Edit, page: &mut Page) -> Result<(), ApplyFault>
    requires plan { IsPlan plan.now }
    requires page { IsWithinLimits plan.now.shape page.old }
    ensures { IsWithinLimits plan.now.shape page.new }
{
    apply(alloc, &plan.shape, edit, page)
}

/// How many cells a data page has.
fn cells(size: u32) -> u16
    requires { IsPageSize size }
{
    ((size - 16) / 40) as u16
}

/// The version in a cell of a data page. The third page of each four names the fourth.
fn version(plan: &Plan, place: u32, cell: u16) -> Cell
    requires { IsPlan plan.now }
{
    let plain = Cell {
        flag: Flag::Primary,
        number: 1,
        back_page: 0,
        back_cell: 0,
        value: Value::new(VALUE),
    };
    match place % 4 {
        2 if place < plan.data_pages.saturating_sub(1) => Cell {
            number: 2,
            back_page: plan.data_page(place + 1),
            back_cell: cell,
            ..plain
        },
        3 => Cell {
            flag: Flag::Back,
            ..plain
        },
        _ => plain,
    }
}
