//! Lost space: pages that are taken and not reached, and cells of reached data pages that hold a
//! version and are not reached.

ghost use Rattle.std.specs.Prelude.{◌≡◌, ◌≤◌, ◌<◌, ◌+◌, ◌*◌, ◌++◌, ◌↔◌, ℕ, List, AllPairs, Contains, Some, IfOk, OnOk, map, take, true};
ghost use Rattle.std.specs.List.{list_any};
ghost use Rattle.std.specs.List.Sorted.{IsStrictlyIncreasing};
ghost use Rattle.fbc_kinds.specs.File.{IsViewOf};
ghost use Rattle.fbc_kinds.specs.Limits.{IsPageSize, inventory_limit};
ghost use Rattle.fbc_kinds.specs.Lost.{ComesBefore, IsLostCell, IsLostPage, IsLostSpace};
ghost use Rattle.fbc_kinds.specs.Sound.{IsSound};
ghost use Rattle.fbc_kinds.specs.View.{View, header_of};
ghost use Rattle.fbc_kinds.specs.declared.shapes.Shape.{Shape};
ghost use Rattle.fbc_links.specs.Chains.{AreChainsOf};
ghost use Rattle.fbc_validator.specs.Lost.{cell_limit, is_lost_by, is_unlinked, unlinked_from, unlinked_in};
ghost use Rattle.fbc_reach.specs.Tally.{IsTallyOf};
ghost use Rattle.fbc_reach.specs.Walk.{data_namings, is_of_page, namings};
ghost use Rattle.fbc_reach.specs.declared.namings.Naming.{Naming};

use crate::marks::is_taken;
use fbc_kinds::{Flag, Header, Listed};
use fbc_links::Chains;
use fbc_reach::{Content, Naming, Tally, Version};
use std::alloc::{AllocError, Global};

/// The place of a cell has two bytes.
const CELL_LIMIT: usize = 1 << 16;

/// The lost space of a file.
#[derive(Drop)]
pub(crate) struct LostSpace {
    /// The lost pages, rising.
    pub pages: Listed<u32>,
    /// The lost cells by their pages and places, rising.
    pub cells: Listed<(u32, u16)>,
}

/// The lost space of a file without damage, by what was kept of its pages and chains. `found` names
/// its data pages.
pub(crate) fn lost_space(
    alloc: Global,
    tally: &Tally,
    header: &Header,
    found: &[Naming],
    chains: &Chains,
) -> Result<LostSpace, AllocError>
    requires size { IsPageSize header.now.size }
    requires count { header.now.inventories ≤ inventory_limit }
    ensures { IfOk result (λ lost. (shape : Shape) (bytes : List ℕ) (view : View)
        → IsViewOf shape bytes view
        → header_of view ≡ Some header.now
        → IsTallyOf shape (Some bytes) (namings view) tally.now
        → found.now ≡ data_namings view
        → AreChainsOf view chains.now
        → IsSound view
        → IsLostSpace view lost.pages lost.cells) }
{
    Ok(LostSpace {
        pages: lost_pages(alloc, tally, header)?,
        cells: lost_cells(alloc, tally, found, chains)?,
    })
}

/// The pages that are taken and not reached, rising, where the file has no damage.
fn lost_pages(alloc: Global, tally: &Tally, header: &Header) -> Result<Listed<u32>, AllocError>
    requires size { IsPageSize header.now.size }
    requires count { header.now.inventories ≤ inventory_limit }
    ensures rise { IfOk result (λ lost. IsStrictlyIncreasing lost) }
    ensures pages { IfOk result (λ lost. (shape : Shape) (bytes : List ℕ) (view : View)
        → IsViewOf shape bytes view
        → header_of view ≡ Some header.now
        → IsTallyOf shape (Some bytes) (namings view) tally.now
        → IsSound view
        → (page : ℕ) → Contains lost page ↔ IsLostPage view page) }
{
    let mut lost = Vec::new(alloc);
    let covered = u32::from(header.inventories) * ((header.size - 16) * 8);
    for page in 0..covered {
        if is_lost(tally, header, page) {
            lost.push(page)?;
        }
    }
    Ok(Listed::new(lost))
}

/// Whether a page is taken and was not named.
fn is_lost(tally: &Tally, header: &Header, page: u32) -> bool
    requires size { IsPageSize header.now.size }
    requires count { header.now.inventories ≤ inventory_limit }
    ensures { result ≡ is_lost_by tally.now header.now page }
{
    is_taken(tally, header, page) && tally.get(page).is_none()
}

/// The cells of data pages that hold a version and are not reached, rising, where the file has no
/// damage. The data pages are those that these namings name.
fn lost_cells(
    alloc: Global,
    tally: &Tally,
    found: &[Naming],
    chains: &Chains,
) -> Result<Listed<(u32, u16)>, AllocError>
    ensures rise { IfOk result (λ lost. AllPairs ComesBefore lost) }
    ensures cells { IfOk result (λ lost. (shape : Shape) (bytes : List ℕ) (view : View)
        → IsPageSize shape.size
        → IsViewOf shape bytes view
        → IsTallyOf shape (Some bytes) (namings view) tally.now
        → found.now ≡ data_namings view
        → AreChainsOf view chains.now
        → IsSound view
        → (page cell : ℕ) → Contains lost (page, cell) ↔ IsLostCell view page cell) }
{
    let pages = rising_pages(alloc, found)?;
    let mut lost = Vec::new(alloc);
    for page in &pages {
        push_page(&mut lost, tally, chains, *page)?;
    }
    Ok(Listed::new(lost))
}

/// The pages that these namings name, each once, rising.
fn rising_pages(alloc: Global, namings: &[Naming]) -> Result<Vec<u32>, AllocError>
    ensures rise { IfOk result (λ pages. IsStrictlyIncreasing pages.items) }
    ensures named { IfOk result (λ pages. (page : ℕ) → Contains pages.items page ↔ (list_any (is_of_page page) namings.now ≡ true)) }
{
    let mut pages = pages_of(alloc, namings)?;
    pages.sort_unstable();
    pages.dedup();
    Ok(pages)
}

/// The pages that these namings name, in their order.
fn pages_of(alloc: Global, namings: &[Naming]) -> Result<Vec<u32>, AllocError>
    ensures { IfOk result (λ pages. pages.items ≡ map (λ (n : Naming). n.page) namings.now) }
{
    namings.iter().map(|naming| naming.page).collect(alloc)
}

/// Adds the lost cells of a page, by what is kept of it.
fn push_page(
    lost: &mut Vec<(u32, u16)>,
    tally: &Tally,
    chains: &Chains,
    page: u32,
) -> Result<(), AllocError>
    ensures { OnOk result (lost.new.items ≡ lost.old.items ++ unlinked_in tally.now chains.now page) }
{
    match tally.get(page) {
        Some(named) => match &named.read.content {
            Content::Data { versions, .. } => push_cells(lost, chains, page, versions.items()),
            _ => Ok(()),
        },
        None => Ok(()),
    }
}

/// Adds the lost cells among those of a page.
fn push_cells(
    lost: &mut Vec<(u32, u16)>,
    chains: &Chains,
    page: u32,
    versions: &[Version],
) -> Result<(), AllocError>
    ensures { OnOk result (lost.new.items ≡ lost.old.items ++ unlinked_from chains.now page 0 (take cell_limit versions.now)) }
{
    let count = versions.len().min(CELL_LIMIT);
    for (cell, version) in versions[..count].iter().enumerate() {
        let cell = cell as u16;
        if is_unlinked(chains, page, cell, version) {
            lost.push((page, cell))?;
        }
    }
    Ok(())
}

/// Whether a cell holds a back version that no good link names.
fn is_unlinked(chains: &Chains, page: u32, cell: u16, version: &Version) -> bool
    ensures { result ≡ is_unlinked chains.now page cell version.now }
{
    version.flag == Flag::Back && !chains.is_linked(page, cell)
}
