//! Pages once more.

ghost use Rattle.std.specs.Prelude.{◌≡◌, IfOk};

use fbc_kinds::{Data, Header, Inventory, Listed, Page, Pointer, Relation, Tip};
use std::alloc::{AllocError, Global};

/// The same page once more.
///
/// # Errors
///
/// `AllocError`, where there is no memory.
pub fn copied(alloc: Global, page: &Page) -> Result<Page, AllocError>
    ensures { IfOk result (λ copy. copy ≡ page.now) }
{
    match page {
        Page::Header(header) => Ok(Page::Header(copied_header(alloc, header)?)),
        Page::Inventory(inventory) => Ok(Page::Inventory(Inventory {
            page: inventory.page,
            sequence: inventory.sequence,
            taken: inventory.taken.copied(alloc)?,
        })),
        Page::Tip(tip) => Ok(Page::Tip(Tip {
            page: tip.page,
            sequence: tip.sequence,
            states: tip.states.copied(alloc)?,
        })),
        Page::Pointer(pointer) => Ok(Page::Pointer(Pointer {
            page: pointer.page,
            relation: pointer.relation,
            sequence: pointer.sequence,
            slots: pointer.slots.copied(alloc)?,
        })),
        Page::Data(data) => Ok(Page::Data(Data {
            page: data.page,
            relation: data.relation,
            sequence: data.sequence,
            cells: data.cells.copied(alloc)?,
        })),
        Page::Blank => Ok(Page::Blank),
    }
}

fn copied_header(alloc: Global, header: &Header) -> Result<Header, AllocError>
    ensures { IfOk result (λ copy. copy ≡ header.now) }
{
    Ok(Header {
        size: header.size,
        next: header.next,
        inventories: header.inventories,
        oldest: header.oldest,
        relations: copied_relations(alloc, header.relations.items())?,
        tips: header.tips.copied(alloc)?,
    })
}

fn copied_relations(alloc: Global, entries: &[Relation]) -> Result<Listed<Relation>, AllocError>
    ensures { IfOk result (λ copies. copies ≡ entries.now) }
{
    let mut copies = Listed::new(Vec::new(alloc));
    for entry in entries {
        copies.push(Relation {
            name: entry.name,
            length: entry.length,
            pointers: entry.pointers.copied(alloc)?,
        })?;
    }
    Ok(copies)
}
