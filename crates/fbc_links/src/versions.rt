//! Versions in the pages that were walked: which back version a link names, and whether a number is
//! committed.

ghost use Rattle.std.specs.Prelude.{◌≡◌, ◌<◌, Some, IfSome, OnSome, length, map, nat_eq, slice_get};
ghost use Rattle.std.specs.Option.{option_map};
ghost use Rattle.indexmap.specs.IndexMap.{index_of};
ghost use Rattle.fbc_kinds.specs.Chain.{state_of};
ghost use Rattle.fbc_kinds.specs.Limits.{IsPageSize};
ghost use Rattle.fbc_kinds.specs.View.{View, is_committed_state, is_top};
ghost use Rattle.fbc_reach.specs.Content.{version_kept};
ghost use Rattle.fbc_links.specs.Links.{is_relation};
ghost use Rattle.fbc_links.specs.Versions.{IsWalked, back_value, cells_walked, if_smaller_back, is_committed_in, relation_of_walked, versions_of};
ghost use Rattle.fbc_links.specs.declared.versions.Back.{Back};

use fbc_kinds::{Flag, State};
use fbc_reach::{Content, Naming, Role, Tally, Version, is_walked_for};

/// A back version that a link names, and where its mark is.
#[derive(Clone, Copy, Debug)]
pub(crate) struct Back {
    pub version: Version,
    /// The index of its page among those that were named.
    pub index: usize,
    /// How many cells its page has.
    pub cells: usize,
}

/// The pages of a file that were walked.
#[derive(Clone, Copy)]
pub(crate) struct Walked<'a> {
    pub tally: &'a Tally,
    /// The bytes of a page.
    pub size: u32,
    /// The transaction inventory pages, by their sequence.
    pub tips: &'a [u32],
}

impl Walked<'_> {
    /// The back value of this relation and of a number below `number` that stands in a cell, if one
    /// does.
    pub(crate) fn back_value(&self, relation: u8, number: u32, page: u32, cell: u16) -> Option<Back>
        ensures back { (view : View) → IsWalked view self.now → option_map (λ (back : Back). back.version) result ≡ back_value view relation number page cell }
        ensures index { IfSome result (λ back. index_of nat_eq self.now.tally.now.pages page ≡ Some back.index) }
        ensures within { IfSome result (λ back. cell < back.cells) }
        ensures smaller { IfSome result (λ back. back.version.number < number) }
    {
        let (index, named) = self.tally.get_full(page)?;
        if !is_of_relation(named.walked, relation) {
            return None;
        }
        let versions = versions_of(&named.read.content);
        Some(Back {
            version: smaller_back(versions, number, cell)?,
            index,
            cells: versions.len(),
        })
    }

    /// The cells of a page that is walked for the role in which it is named; none of another page.
    pub(crate) fn cells(&self, naming: Naming) -> &[Version]
        ensures { (view : View) → IsWalked view self.now → result.now ≡ map version_kept (cells_walked view naming) }
    {
        match self.tally.get(naming.page) {
            Some(named) if is_walked_for(naming.role, named.walked) => {
                versions_of(&named.read.content)
            }
            _ => &[],
        }
    }

    /// Whether the transaction of this number is committed.
    pub(crate) fn is_committed(&self, number: u32) -> bool
        requires { IsPageSize self.now.size }
        ensures { (view : View) → IsWalked view self.now → result ≡ is_committed_state (state_of view number) }
    {
        let numbers = 4 * (self.size - 16);
        let Some(tip) = self.tips.get((number / numbers) as usize) else {
            return false;
        };
        let Some(named) = self.tally.get(*tip) else {
            return false;
        };
        is_committed_in(&named.read.content, (number % numbers) as usize)
    }
}

/// Whether a page is walked as a data page of this relation.
fn is_of_relation(walked: Option<Role>, relation: u8) -> bool
    ensures { result ≡ is_relation relation (relation_of_walked walked) }
{
    match walked {
        Some(Role::Data { relation: own, .. }) => own == relation,
        _ => false,
    }
}

/// The cells of a data page; none of another page.
fn versions_of(content: &Content) -> &[Version]
    ensures { result.now ≡ versions_of content.now }
{
    match content {
        Content::Data { versions, .. } => versions.items(),
        _ => &[],
    }
}

/// The back value of a number below `number` in a cell of a page, if one stands there.
fn smaller_back(versions: &[Version], number: u32, cell: u16) -> Option<Version>
    ensures back { result ≡ if_smaller_back number (slice_get versions.now cell) }
    ensures within { OnSome result (cell < length versions.now) }
    ensures smaller { IfSome result (λ back. back.number < number) }
{
    match versions.get(usize::from(cell)) {
        Some(version) if version.flag == Flag::Back && version.number < number => Some(*version),
        _ => None,
    }
}

/// Whether a transaction inventory page has a committed state at a place.
fn is_committed_in(content: &Content, place: usize) -> bool
    ensures { result ≡ is_committed_in place content.now }
{
    match content {
        Content::Tip { states, .. } => states.items().get(place) == Some(&State::Committed),
        _ => false,
    }
}

/// Whether a version is the newest of its record.
pub(crate) fn is_top(flag: Flag) -> bool
    ensures { result ≡ is_top flag }
{
    matches!(flag, Flag::Primary | Flag::Deletion)
}
