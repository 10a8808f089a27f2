//! The chains of versions: which cells good links name, and what is wrong along the chains.

ghost use Rattle.std.specs.Prelude.{◌≡◌, ◌≤◌, ◌<◌, ◌^◌, ◌++◌, ◌∷◌, [], ℕ, List, Option, Some, None, if◌then◌else◌, IfOk, OnOk, IfSome, map, length, nat_eq};
ghost use Rattle.std.specs.List.{list_any};
ghost use Rattle.std.specs.Option.{option_map};
ghost use Rattle.indexmap.specs.IndexMap.{index_of};
ghost use Rattle.fbc_kinds.specs.Limits.{IsPageSize};
ghost use Rattle.fbc_kinds.specs.File.{IsViewOf};
ghost use Rattle.fbc_kinds.specs.View.{View, cell_at, header_of};
ghost use Rattle.fbc_kinds.specs.declared.pages.Cell.{Cell};
ghost use Rattle.fbc_kinds.specs.declared.pages.Header.{Header};
ghost use Rattle.fbc_kinds.specs.declared.shapes.Shape.{Shape};
ghost use Rattle.fbc_links.specs.Chains.{AreChainsOf, has_below, has_fault, is_linked, is_to};
ghost use Rattle.fbc_links.specs.Following.{AreFollowed, AreMarks, first_link, good_link, links_below, links_of_naming, links_of_version, next_version};
ghost use Rattle.fbc_reach.specs.Content.{version_kept};
ghost use Rattle.fbc_links.specs.Links.{Link, links_of_cells};
ghost use Rattle.fbc_reach.specs.Tally.{IsTallyOf};
ghost use Rattle.fbc_links.specs.Versions.{IsWalked};
ghost use Rattle.fbc_reach.specs.Walk.{data_namings, namings};

use crate::namers::{Namers, Place};
use crate::versions::{Back, Walked, is_top};
use fbc_reach::{Naming, Role, Tally, Version};
use indexmap::IndexSet;
use std::alloc::{AllocError, Global};

/// What the chains of a file show.
#[derive(Drop)]
pub struct Chains<'a> {
    /// The pages of the file.
    walked: Walked<'a>,
    /// For each cell that a good link names, the version that named it first.
    namers: Namers,
    /// The pages with a version that is at fault.
    faults: IndexSet<u32>,
    /// The pages with a version that stands below a top and is not committed.
    belows: IndexSet<u32>,
}

/// Follows the chains of all data pages, in the order in which `found` names them, and each link once.
/// A page of the file has `size` bytes, and `tips` are its transaction inventory pages by their
/// sequence. Only memory can fail.
pub fn follow<'a>(
    alloc: Global,
    tally: &'a Tally,
    size: u32,
    tips: &'a [u32],
    found: &[Naming],
) -> Result<Chains<'a>, AllocError>
    requires { IsPageSize size }
    ensures { IfOk result (λ chains. (shape : Shape) (bytes : List ℕ) (view : View) (header : Header)
        → shape.size ≡ size
        → IsViewOf shape bytes view
        → header_of view ≡ Some header
        → header.size ≡ size
        → header.tips ≡ tips.now
        → IsTallyOf shape (Some bytes) (namings view) tally.now
        → found.now ≡ data_namings view
        → AreChainsOf view chains) }
{
    let walked = Walked { tally, size, tips };
    let mut chains = Chains::new(alloc, walked)?;
    for naming in found {
        chains.follow_page(alloc, *naming)?;
    }
    Ok(chains)
}

impl<'a> Chains<'a> {
    /// No link was followed yet.
    fn new(alloc: Global, walked: Walked<'a>) -> Result<Chains<'a>, AllocError>
        ensures followed { IfOk result (λ chains. (view : View) → AreFollowed view [] chains) }
        ensures walked { IfOk result (λ chains. chains.walked ≡ walked.entry) }
    {
        Ok(Chains {
            walked,
            namers: Namers::new(alloc, walked.tally.len())?,
            faults: IndexSet::new(alloc),
            belows: IndexSet::new(alloc),
        })
    }

    /// Whether a version names this cell by a good link.
    pub fn is_linked(&self, page: u32, cell: u16) -> bool
        ensures { result ≡ is_linked self.now page cell }
    {
        match self.walked.tally.index_of(page) {
            Some(index) => self.namers.get(index, cell).is_some(),
            None => false,
        }
    }

    /// Whether a version of this page is at fault.
    pub fn has_fault(&self, page: u32) -> bool
        ensures { result ≡ has_fault self.now page }
    {
        self.faults.contains(&page)
    }

    /// Whether a version of this page stands below a top and is not committed.
    pub fn has_below(&self, page: u32) -> bool
        ensures { result ≡ has_below self.now page }
    {
        self.belows.contains(&page)
    }

    /// Follows the chains of a page, if it is walked for the role in which it is named.
    fn follow_page(&mut self, alloc: Global, naming: Naming) -> Result<(), AllocError>
        requires { IsPageSize self.old.walked.size }
        ensures followed { OnOk result ((view : View) (all : List Link)
            → IsWalked view self.old.walked
            → AreFollowed view all self.old
            → AreFollowed view (all ++ links_of_naming view naming) self.new) }
        ensures walked { self.new.walked ≡ self.old.walked }
    {
        match naming.role {
            Role::Data { relation, .. } => {
                let walked = self.walked;
                self.follow_tops(alloc, relation, naming.page, walked.cells(naming))
            }
            _ => Ok(()),
        }
    }

    /// Follows the chains of the tops among the cells of a page.
    fn follow_tops(
        &mut self,
        alloc: Global,
        relation: u8,
        page: u32,
        versions: &[Version],
    ) -> Result<(), AllocError>
        requires { IsPageSize self.old.walked.size }
        ensures followed { OnOk result ((view : View) (all : List Link) (cells : List Cell)
            → IsWalked view self.old.walked
            → versions.now ≡ map version_kept cells
            → length cells ≤ 2 ^ 16
            → AreFollowed view all self.old
            → AreFollowed view (all ++ links_of_cells view relation page 0 cells) self.new) }
        ensures walked { self.new.walked ≡ self.old.walked }
    {
        for (index, version) in versions.iter().enumerate() {
            // A page has far fewer cells.
            let Ok(cell) = u16::try_from(index) else {
                break;
            };
            self.follow_top(alloc, relation, Place { page, cell }, *version)?;
        }
        Ok(())
    }

    /// Follows the chain of a version, if it is a top.
    fn follow_top(
        &mut self,
        alloc: Global,
        relation: u8,
        place: Place,
        version: Version,
    ) -> Result<(), AllocError>
        requires { IsPageSize self.old.walked.size }
        ensures followed { OnOk result ((view : View) (all : List Link)
            → IsWalked view self.old.walked
            → AreFollowed view all self.old
            → AreFollowed view (all ++ links_of_version view relation place.page place.cell version) self.new) }
        ensures walked { self.new.walked ≡ self.old.walked }
    {
        if is_top(version.flag) {
            self.follow_chain(alloc, relation, place, version)?;
        }
        Ok(())
    }

    /// Follows the links from a version down, as far as they are good and were not followed before.
    fn follow_chain(
        &mut self,
        alloc: Global,
        relation: u8,
        place: Place,
        version: Version,
    ) -> Result<(), AllocError>
        requires { IsPageSize self.old.walked.size }
        ensures followed { OnOk result ((view : View) (all : List Link)
            → IsWalked view self.old.walked
            → AreFollowed view all self.old
            → AreFollowed view (all ++ links_below view relation place.page place.cell version) self.new) }
        ensures walked { self.new.walked ≡ self.old.walked }
    {
        let mut place = place;
        let mut version = version;
        while let Some(back) = self.follow_link(alloc, relation, place, version)? {
            place = back_place(version);
            version = back;
        }
        Ok(())
    }

    /// Notes the link of a version, if it names a back version. Returns that version where it is the
    /// one to go on with: the link is good, and none was noted that names the same cell.
    fn follow_link(
        &mut self,
        alloc: Global,
        relation: u8,
        place: Place,
        version: Version,
    ) -> Result<Option<Version>, AllocError>
        requires { IsPageSize self.old.walked.size }
        ensures marks { OnOk result ((view : View) (all : List Link)
            → IsWalked view self.old.walked
            → AreMarks view all self.old
            → AreMarks view (all ++ first_link view relation place.page place.cell version) self.new) }
        ensures next { IfOk result (λ next. (view : View) (all : List Link)
            → IsWalked view self.old.walked
            → AreMarks view all self.old
            → next ≡ next_version view relation all version) }
        ensures smaller { IfOk result (λ next. IfSome next (λ back. back.number < version.number)) }
        ensures walked { self.new.walked ≡ self.old.walked }
    {
        if version.back_page == 0 {
            return Ok(None);
        }
        let to = back_place(version);
        match self
            .walked
            .back_value(relation, version.number, to.page, to.cell)
        {
            Some(back) => self.note_good(alloc, place, to, back),
            None => {
                self.faults.insert(place.page)?;
                Ok(None)
            }
        }
    }

    /// Notes a good link between two places, to the version `back`. Returns that version, if no link
    /// was noted that names the same cell.
    fn note_good(
        &mut self,
        alloc: Global,
        from: Place,
        to: Place,
        back: Back,
    ) -> Result<Option<Version>, AllocError>
        requires size { IsPageSize self.old.walked.size }
        requires index { index_of nat_eq self.old.walked.tally.now.pages to.page ≡ Some back.index }
        requires within { to.cell < back.cells }
        ensures marks { OnOk result ((view : View) (all : List Link)
            → IsWalked view self.old.walked
            → option_map version_kept (cell_at view to.page to.cell) ≡ Some back.version
            → AreMarks view all self.old
            → AreMarks view (all ++ good_link from to ∷ []) self.new) }
        ensures next { IfOk result (λ next. (view : View) (all : List Link)
            → AreMarks view all self.old
            → next ≡ (if list_any (is_to to.page to.cell) all then None else Some back.version)) }
        ensures same { IfOk result (λ next. IfSome next (λ version. version ≡ back.version)) }
        ensures walked { self.new.walked ≡ self.old.walked }
    {
        let version = back.version;
        match self.namers.get(back.index, to.cell) {
            Some(first) => {
                if first != from {
                    self.faults.insert(from.page)?;
                }
                Ok(None)
            }
            None => {
                self.namers
                    .set(alloc, back.index, back.cells, to.cell, from)?;
                if !self.walked.is_committed(version.number) {
                    self.belows.insert(to.page)?;
                }
                Ok(Some(version))
            }
        }
    }
}

/// The place that a version names as its back version's.
fn back_place(version: Version) -> Place
    ensures page { result.page ≡ version.back_page }
    ensures cell { result.cell ≡ version.back_cell }
{
    Place {
        page: version.back_page,
        cell: version.back_cell,
    }
}
