//! The pages of a new file as values.

ghost use Rattle.std.specs.Prelude.{◌≡◌, ◌<◌, ◌≤◌, ◌++◌, length, IfOk, OnOk, map};
ghost use Rattle.std.specs.List.{range_with_len};
ghost use Rattle.fbc_kinds.specs.Limits.{IsPageSize};
ghost use Rattle.fbc_files.specs.Creating.{AreNewPages};
ghost use Rattle.fbc_files.specs.NewPages.{AreNewRelations, active_states, empty_slots, new_entries, new_header, new_inventory, new_pages, new_pointer, new_tip, pointer_page, taken_first};

use crate::relations::NewRelation;
use fbc_kinds::{Header, Inventory, Listed, Page, Pointer, Relation, State, Tip};
use std::alloc::{AllocError, Global};

/// The page inventory of a new file.
const INVENTORY: u32 = 1;

/// The transaction inventory of a new file.
const TIP: u32 = 2;

/// The first pointer page of a new file.
const FIRST_POINTER: u32 = 3;

/// The pages of a new file, in the order of their numbers.
pub fn new_pages(
    alloc: Global,
    size: u32,
    relations: &[NewRelation],
) -> Result<Vec<Page>, AllocError>
    requires size { IsPageSize size }
    requires relations { AreNewRelations relations.now }
    ensures pages { IfOk result (λ pages. pages.items ≡ new_pages size relations.now) }
    ensures fits { IfOk result (λ pages. AreNewPages size pages.items) }
{
    let count = FIRST_POINTER + relations.len() as u32;
    let header = new_header(alloc, size, relations)?;
    let inventory = new_inventory(alloc, size, count)?;
    let tip = new_tip(alloc, size)?;
    let mut pages = vec![in alloc;
        Page::Header(header),
        Page::Inventory(inventory),
        Page::Tip(tip),
    ]?;
    add_pointers(alloc, size, relations.len() as u8, &mut pages)?;
    Ok(pages)
}

/// Adds the pointer pages of so many relations.
fn add_pointers(
    alloc: Global,
    size: u32,
    relations: u8,
    pages: &mut Vec<Page>,
) -> Result<(), AllocError>
    requires size { IsPageSize size }
    ensures { OnOk result (pages.new.items ≡ pages.old.items ++ map (pointer_page size) (range_with_len 0 relations)) }
{
    for relation in 0..relations {
        pages.push(Page::Pointer(new_pointer(alloc, size, relation)?))?;
    }
    Ok(())
}

fn new_header(alloc: Global, size: u32, relations: &[NewRelation]) -> Result<Header, AllocError>
    requires { length relations.now ≤ 8 }
    ensures { IfOk result (λ header. header ≡ new_header size relations.now) }
{
    let entries = new_entries(alloc, relations)?;
    Ok(Header {
        size,
        next: 1,
        inventories: 1,
        oldest: 0,
        relations: Listed::new(entries),
        tips: Listed::new(vec![in alloc; TIP]?),
    })
}

fn new_entries(alloc: Global, relations: &[NewRelation]) -> Result<Vec<Relation>, AllocError>
    requires { length relations.now ≤ 8 }
    ensures { IfOk result (λ entries. entries.items ≡ new_entries 3 relations.now) }
{
    let mut entries = Vec::with_capacity(alloc, relations.len())?;
    for (i, relation) in relations.iter().enumerate() {
        let pointer = FIRST_POINTER + i as u32;
        entries.push(Relation {
            name: relation.name,
            length: relation.length,
            pointers: Listed::new(vec![in alloc; pointer]?),
        })?;
    }
    Ok(entries)
}

fn new_inventory(alloc: Global, size: u32, count: u32) -> Result<Inventory, AllocError>
    requires size { IsPageSize size }
    requires count { count ≤ 11 }
    ensures { IfOk result (λ inventory. inventory ≡ new_inventory size count) }
{
    let covered = (size - 16) * 8;
    Ok(Inventory {
        page: INVENTORY,
        sequence: 0,
        taken: taken_first(alloc, count as usize, (covered - count) as usize)?,
    })
}

fn new_tip(alloc: Global, size: u32) -> Result<Tip, AllocError>
    requires { IsPageSize size }
    ensures { IfOk result (λ tip. tip ≡ new_tip size) }
{
    let numbers = 4 * (size - 16);
    Ok(Tip {
        page: TIP,
        sequence: 0,
        states: active_states(alloc, numbers as usize)?,
    })
}

fn new_pointer(alloc: Global, size: u32, relation: u8) -> Result<Pointer, AllocError>
    requires { IsPageSize size }
    ensures { IfOk result (λ pointer. pointer ≡ new_pointer size relation) }
{
    let slots = (size - 16) / 4;
    Ok(Pointer {
        page: FIRST_POINTER + u32::from(relation),
        relation,
        sequence: 0,
        slots: empty_slots(alloc, slots as usize)?,
    })
}

#[tactic(auto, unfolding(crate::specs::NewPages::taken_first))]
fn taken_first(alloc: Global, taken: usize, free: usize) -> Result<Listed<bool>, AllocError>
    ensures { IfOk result (λ marks. marks ≡ taken_first taken free) }
{
    let mut marks = Listed::filled(alloc, true, taken)?;
    marks.add_copies(false, free)?;
    Ok(marks)
}

#[tactic(auto, unfolding(crate::specs::NewPages::active_states))]
fn active_states(alloc: Global, count: usize) -> Result<Listed<State>, AllocError>
    ensures { IfOk result (λ states. states ≡ active_states count) }
{
    Listed::filled(alloc, State::Active, count)
}

#[tactic(auto, unfolding(crate::specs::NewPages::empty_slots))]
fn empty_slots(alloc: Global, count: usize) -> Result<Listed<u32>, AllocError>
    ensures { IfOk result (λ slots. slots ≡ empty_slots count) }
{
    Listed::filled(alloc, 0, count)
}
