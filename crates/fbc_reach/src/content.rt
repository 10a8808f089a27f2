//! What is kept of a page that was read.

ghost use Rattle.std.specs.Prelude.{◌≡◌, IfOk, map, length, Some, None};
ghost use Rattle.fbc_kinds.specs.HeaderSpelling.{IsFileShape};
ghost use Rattle.fbc_reach.specs.Content.{IsReadFrom, content_of, version_kept};

use fbc_kinds::{Cell, Flag, Listed, Page, PageFault, Rule, Shape, State};
use fbc_spelling::page_shown;
use std::alloc::{AllocError, Global};

/// A cell of a data page without its value.
#[derive(Clone, Copy, Debug, PartialEq, Eq)]
pub struct Version {
    pub flag: Flag,
    pub number: u32,
    pub back_page: u32,
    pub back_cell: u16,
}

/// What the walk goes by, by the kind of a page.
#[derive(Debug, Drop)]
pub enum Content {
    Inventory {
        sequence: u32,
        taken: Listed<bool>,
    },
    Tip {
        sequence: u32,
        states: Listed<State>,
    },
    Pointer {
        relation: u8,
        sequence: u32,
        slots: Listed<u32>,
    },
    Data {
        relation: u8,
        sequence: u32,
        versions: Listed<Version>,
    },
    /// A header, a blank page, or bytes that show no page.
    Other,
}

/// A page that was read.
#[derive(Debug, Drop)]
pub struct PageRead {
    /// The byte that names its kind.
    pub kind: u8,
    /// The first rule that its bytes break.
    pub rule: Option<Rule>,
    pub content: Content,
}

/// The page that these bytes show, without what the walk does not need.
pub fn content_shown(
    alloc: Global,
    shape: &Shape,
    number: u32,
    bytes: &[u8],
) -> Result<PageRead, AllocError>
    requires shape { IsFileShape shape.now }
    requires length { length bytes.now ≡ shape.now.size }
    ensures { IfOk result (IsReadFrom shape.now number bytes.now) }
{
    match page_shown(alloc, shape, number, bytes) {
        Ok(page) => Ok(PageRead {
            kind: bytes[0],
            rule: None,
            content: content_of(alloc, page)?,
        }),
        Err(fault) => Ok(PageRead {
            kind: bytes[0],
            rule: Some(rule_of(fault)?),
            content: Content::Other,
        }),
    }
}

/// The rule that is broken where it was not the memory that failed.
fn rule_of(fault: PageFault) -> Result<Rule, AllocError>
    ensures { IfOk result (λ rule. fault ≡ PageFault.Damaged rule) }
{
    match fault {
        PageFault::Damaged { rule } => Ok(rule),
        PageFault::Memory => Err(AllocError),
    }
}

fn content_of(alloc: Global, page: Page) -> Result<Content, AllocError>
    ensures { IfOk result (λ content. content ≡ content_of (Some page)) }
{
    match page {
        Page::Inventory(inventory) => Ok(Content::Inventory {
            sequence: inventory.sequence,
            taken: inventory.taken,
        }),
        Page::Tip(tip) => Ok(Content::Tip {
            sequence: tip.sequence,
            states: tip.states,
        }),
        Page::Pointer(pointer) => Ok(Content::Pointer {
            relation: pointer.relation,
            sequence: pointer.sequence,
            slots: pointer.slots,
        }),
        Page::Data(data) => Ok(Content::Data {
            relation: data.relation,
            sequence: data.sequence,
            versions: versions_of(alloc, data.cells.items())?,
        }),
        Page::Header(_) | Page::Blank => Ok(Content::Other),
    }
}

fn versions_of(alloc: Global, cells: &[Cell]) -> Result<Listed<Version>, AllocError>
    ensures { IfOk result (λ versions. versions ≡ map version_kept cells.now) }
{
    let mut versions = Vec::with_capacity(alloc, cells.len())?;
    for cell in cells {
        versions.push(version_kept(cell))?;
    }
    Ok(Listed::new(versions))
}

fn version_kept(cell: &Cell) -> Version
    ensures { result ≡ version_kept cell.now }
{
    Version {
        flag: cell.flag,
        number: cell.number,
        back_page: cell.back_page,
        back_cell: cell.back_cell,
    }
}
