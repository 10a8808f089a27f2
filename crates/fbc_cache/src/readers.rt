//! What pages say, so that nobody above takes one apart. Of a page that may not be used, or is of another kind, each
//! reader answers what it answers of an empty one.

ghost use Rattle.std.specs.Prelude.{◌≡◌, ◌≤◌, IfSome, length};
ghost use Rattle.std.specs.Option.{option_copied};
ghost use Rattle.fbc_kinds.specs.View.{header_in};
ghost use Rattle.fbc_kinds.specs.declared.pages.Header.{Header as AHeader};
ghost use Rattle.fbc_cache.specs.Cache.{copy_in};
ghost use Rattle.fbc_cache.specs.Readers.{header_number, is_taken_in, number_at, place_in, slot_shown, state_shown, states_in, tips_in};
ghost use Rattle.fbc_cache.specs.Remembered.{pointers_of};

use crate::cache::Cache;
use fbc_kinds::{Header, Page, State};

/// Where a page stands.
#[derive(Clone, Copy, Debug, PartialEq, Eq)]
pub struct Place {
    /// As the first byte of a page numbers the kinds: 1 header, 2 page inventory, 3 transaction inventory, 4 pointer, 5
    /// data; 0 for a blank page, and for one that may not be used.
    pub kind: u8,
    /// The relation of a pointer page or a data page, else 0.
    pub relation: u8,
    /// 0 for the header.
    pub sequence: u32,
}

impl Place {
    fn new(kind: u8, relation: u8, sequence: u32) -> Self
        ensures { result ≡ record { kind = kind; relation = relation; sequence = sequence } }
    {
        Place {
            kind,
            relation,
            sequence,
        }
    }
}

impl Cache {
    /// Where the page stands.
    pub fn place(&self, page: u32) -> Place
        ensures { result ≡ place_in (copy_in self.now.held page) }
    {
        match self.page(page) {
            Some(Page::Header(_)) => Place::new(1, 0, 0),
            Some(Page::Inventory(inventory)) => Place::new(2, 0, inventory.sequence),
            Some(Page::Tip(tip)) => Place::new(3, 0, tip.sequence),
            Some(Page::Pointer(pointer)) => Place::new(4, pointer.relation, pointer.sequence),
            Some(Page::Data(data)) => Place::new(5, data.relation, data.sequence),
            Some(Page::Blank) | None => Place::new(0, 0, 0),
        }
    }

    /// The header, if it may be used.
    fn header(&self) -> Option<&Header>
        ensures header { option_copied result ≡ header_in (copy_in self.now.held 0) }
        ensures limits { IfSome result (λ header. length header.now.tips ≤ 16) }
    {
        match self.buffers.buffer(0) {
            Some(buffer) => header_in(&buffer.copy),
            None => None,
        }
    }

    /// The number that the next transaction gets, as the header says.
    pub fn next(&self) -> u32
        ensures { result ≡ header_number (λ (h : AHeader). h.next) self.now }
    {
        match self.header() {
            Some(header) => header.next,
            None => 0,
        }
    }

    /// The oldest transaction that is looked up, as the header says.
    pub fn oldest(&self) -> u32
        ensures { result ≡ header_number (λ (h : AHeader). h.oldest) self.now }
    {
        match self.header() {
            Some(header) => header.oldest,
            None => 0,
        }
    }

    /// How many page inventory pages the header counts.
    pub fn inventories(&self) -> u16
        ensures { result ≡ header_number (λ (h : AHeader). h.inventories) self.now }
    {
        match self.header() {
            Some(header) => header.inventories,
            None => 0,
        }
    }

    /// The transaction inventory pages that the header names, by their sequence.
    pub fn tips(&self) -> &[u32]
        ensures tips { result.now ≡ tips_in self.now }
        ensures few { length result.now ≤ 16 }
    {
        match self.header() {
            Some(header) => header.tips.items(),
            None => &[],
        }
    }

    /// How many transaction inventory pages the header names.
    pub fn tip_count(&self) -> u16
        ensures count { result ≡ length (tips_in self.now) }
        ensures few { result ≤ 16 }
    {
        self.tips().len() as u16
    }

    /// The transaction inventory page of that sequence, 0 where there is none.
    pub fn tip_page(&self, sequence: u32) -> u32
        ensures { result ≡ number_at (tips_in self.now) sequence }
    {
        number_at(self.tips(), sequence)
    }

    /// How many pointer pages the relation has, as the header last showed it.
    pub fn pointer_count(&self, relation: u8) -> u8
        ensures { result ≡ length (pointers_of self.now.pointers relation) }
    {
        self.remembered.pointers(relation).len() as u8
    }

    /// The relation's pointer page of sequence `k`, as the header last showed it, 0 where there is none.
    pub fn pointer_page(&self, relation: u8, k: u32) -> u32
        ensures { result ≡ number_at (pointers_of self.now.pointers relation) k }
    {
        number_at(self.remembered.pointers(relation), k)
    }

    /// Whether the page inventory page shows the target as taken.
    pub fn taken(&self, page: u32, target: u32) -> bool
        ensures { result ≡ is_taken_in self.now page target }
    {
        let place = target % ((self.shape.size - 16) * 8);
        match self.page(page) {
            Some(Page::Inventory(inventory)) => {
                match inventory.taken.items().get(place as usize) {
                    Some(taken) => *taken,
                    None => false,
                }
            }
            _ => false,
        }
    }

    /// The state that the transaction inventory page shows of the number.
    pub fn state(&self, page: u32, number: u32) -> State
        ensures { result ≡ state_shown self.now page number }
    {
        let place = number % (4 * (self.shape.size - 16));
        match self.page(page) {
            Some(Page::Tip(tip)) => {
                match tip.states.items().get(place as usize) {
                    Some(state) => *state,
                    None => State::Active,
                }
            }
            _ => State::Active,
        }
    }

    /// All states that the transaction inventory page shows, in the order of their numbers; none where it is no such page.
    pub fn states(&self, page: u32) -> &[State]
        ensures { result.now ≡ states_in (copy_in self.now.held page) }
    {
        match self.page(page) {
            Some(Page::Tip(tip)) => tip.states.items(),
            _ => &[],
        }
    }

    /// What the slot of the pointer page names, 0 where it names no page.
    pub fn slot(&self, page: u32, k: u32) -> u32
        ensures { result ≡ slot_shown self.now page k }
    {
        match self.page(page) {
            Some(Page::Pointer(pointer)) => number_at(pointer.slots.items(), k),
            _ => 0,
        }
    }
}

/// The header, where the copy is one.
fn header_in(copy: &Option<Page>) -> Option<&Header>
    ensures { option_copied result ≡ header_in copy.now }
{
    match copy {
        Some(Page::Header(header)) => Some(header),
        _ => None,
    }
}

/// The number at this place of a list, 0 where there is none.
fn number_at(numbers: &[u32], place: u32) -> u32
    ensures { result ≡ number_at numbers.now place }
{
    match numbers.get(place as usize) {
        Some(number) => *number,
        None => 0,
    }
}
