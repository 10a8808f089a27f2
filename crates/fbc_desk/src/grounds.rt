//! Whether an edit has its grounds.

ghost use Rattle.std.specs.Prelude.{◌≡◌, ◌↔◌, ◌<◌, ◌/◌, ◌*◌, ◌+◌, IsTrue, false};
ghost use Rattle.fbc_kinds.specs.Limits.{inventory_bits};
ghost use Rattle.fbc_cache.specs.Readers.{slot_shown};
ghost use Rattle.fbc_desk.specs.Grounds.{GroundsOf, HasGrounds, IsAhead, IsNamedInTime, IsNamedPlace, IsRaisedInTime, IsReady, IsTakenInTime, IsUnsealed, LeadsThrough, LeadsTo, MayBeNamed, MayCommit, MayFormat, MayName, MayPutRow, MayRaise, MayTakePage, has_taken, inventory_over, is_taking};

use crate::desk::Desk;
use crate::own::Deed;
use crate::sizes::inventory_over;
use fbc_kinds::{Cell, Edit, Flag, State};

impl Desk {
    /// Whether an edit has its grounds.
    pub(crate) fn has_grounds(&self, page: u32, edit: &Edit, highs: &[u32]) -> bool
        ensures { IsTrue result ↔ HasGrounds self.now page edit.now highs.now }
    {
        !self.cache.waits() && self.is_unsealed() && self.has_grounds_of(page, edit, highs)
    }

    /// Whether the open transaction, if there is one, is not marked yet.
    fn is_unsealed(&self) -> bool
        ensures { IsTrue result ↔ IsUnsealed self.now.own }
    {
        match &self.own {
            Some(own) => !own.is_sealed,
            None => true,
        }
    }

    /// Whether what the kind of edit rests on is there.
    fn has_grounds_of(&self, page: u32, edit: &Edit, highs: &[u32]) -> bool
        ensures { IsTrue result ↔ GroundsOf self.now page highs.now edit.now }
    {
        match *edit {
            Edit::SetNext { next } => self.may_raise(page, next),
            Edit::TakePage { page: taken } => self.may_take(page, taken),
            Edit::Format {
                kind,
                page: number,
                relation: _,
                sequence: _,
            } => self.may_format(page, highs, kind, number),
            Edit::Name { slot, page: named } => self.may_name(page, highs, slot, named),
            Edit::PutCell { cell, ref content } => self.may_put_row(page, highs, cell, content),
            Edit::Mark {
                number,
                state: State::Committed,
            } => self.may_commit(page, highs, number),
            _ => false,
        }
    }

    /// Whether a page needs no further pair to be written before the edited one, or gets it by this edit.
    fn is_ahead(&self, page: u32, highs: &[u32], other: u32) -> bool
        ensures { IsTrue result ↔ IsAhead self.now.cache page highs.now other }
    {
        !self.cache.is_dirty(other)
            || other == page
            || highs.contains(&other)
            || self.cache.leads(other, page)
            || self.leads_through(highs, other)
    }

    /// Whether a page stands before one of the high pages that is dirty.
    fn leads_through(&self, highs: &[u32], other: u32) -> bool
        ensures { IsTrue result ↔ LeadsThrough self.now.cache highs.now other }
    {
        for high in highs {
            if self.leads_to(other, *high) {
                return true;
            }
        }
        false
    }

    /// Whether a page stands before the high page, which is dirty.
    fn leads_to(&self, other: u32, high: u32) -> bool
        ensures { IsTrue result ↔ LeadsTo self.now.cache other high }
    {
        self.cache.is_dirty(high) && self.cache.leads(other, high)
    }

    /// Whether the page inventory over the page shows it as taken and comes first, and the header counts it in time.
    fn is_taken_in_time(&self, edited: u32, highs: &[u32], page: u32) -> bool
        ensures { IsTrue result ↔ IsTakenInTime self.now edited highs.now page }
    {
        let over = self.inventory_over(page);
        let sequence = page / self.inventory_bits();
        self.cache.taken(over, page)
            && self.is_ahead(edited, highs, over)
            && sequence < self.counted as u32
            && (sequence < self.written as u32 || self.is_ahead(edited, highs, 0))
    }

    /// Where the page inventory stands that covers the page.
    fn inventory_over(&self, page: u32) -> u32
        ensures { result ≡ inventory_over self.now.cache.shape.size page }
    {
        self.cache.holds();
        inventory_over(self.cache.page_size(), page)
    }

    /// Whether the open transaction has this number, which it raised in the header, and the header comes first.
    fn is_raised_in_time(&self, edited: u32, highs: &[u32], number: u32) -> bool
        ensures { IsTrue result ↔ IsRaisedInTime self.now edited highs.now number }
    {
        match &self.own {
            Some(own) => own.snapshot.own == number
                && own.is_raised
                && self.is_ahead(edited, highs, 0),
            None => false,
        }
    }

    /// Whether the header may give out the number of the open transaction.
    fn may_raise(&self, page: u32, next: u32) -> bool
        ensures { IsTrue result ↔ MayRaise self.now page next }
    {
        match &self.own {
            Some(own) => page == 0
                && !own.is_raised
                && self.cache.next() == own.snapshot.own
                && next > 0
                && next - 1 == own.snapshot.own,
            None => false,
        }
    }

    /// Whether a page may be taken from this page inventory.
    fn may_take(&self, page: u32, taken: u32) -> bool
        ensures { IsTrue result ↔ MayTakePage self.now page taken }
    {
        page == self.inventory_over(taken) && !self.cache.taken(page, taken)
    }

    /// Whether a page may become a data page.
    fn may_format(&self, page: u32, highs: &[u32], kind: u8, number: u32) -> bool
        ensures { IsTrue result ↔ MayFormat self.now page highs.now kind number }
    {
        kind == 5
            && number == page
            && page != 0
            && self.has_taken(page)
            && self.is_taken_in_time(page, highs, page)
    }

    /// Whether this part has taken the page.
    fn has_taken(&self, page: u32) -> bool
        ensures { result ≡ has_taken self.now page }
    {
        let inventory = self.inventory_over(page);
        self.deeds
            .iter()
            .any(|deed| is_taking(page, inventory, deed))
    }

    /// Whether an empty slot may name a page.
    fn may_name(&self, page: u32, highs: &[u32], slot: u32, named: u32) -> bool
        ensures { IsTrue result ↔ MayName self.now page highs.now slot named }
    {
        self.is_empty_slot(page, slot) && self.may_be_named(page, highs, slot, named)
    }

    /// Whether the slot of the pointer page names no page.
    fn is_empty_slot(&self, page: u32, slot: u32) -> bool
        ensures { IsTrue result ↔ (slot_shown self.now.cache page slot ≡ 0) }
    {
        self.cache.slot(page, slot) == 0
    }

    /// Whether a page may be named in the slot.
    fn may_be_named(&self, page: u32, highs: &[u32], slot: u32, named: u32) -> bool
        ensures { IsTrue result ↔ MayBeNamed self.now page highs.now slot named }
    {
        self.is_ready(page, slot, named) && self.is_named_in_time(page, highs, named)
    }

    /// Whether a page that is named comes first, and was taken in time.
    fn is_named_in_time(&self, page: u32, highs: &[u32], named: u32) -> bool
        ensures { IsTrue result ↔ IsNamedInTime self.now page highs.now named }
    {
        self.is_ahead(page, highs, named) && self.is_taken_in_time(page, highs, named)
    }

    /// Whether the page is an empty data page that was made for the slot.
    fn is_ready(&self, page: u32, slot: u32, named: u32) -> bool
        ensures { IsTrue result ↔ IsReady self.now page slot named }
    {
        self.is_named_place(page, slot, named) && self.cache.is_vacant(named)
    }

    /// Whether the page is the data page that the slot of this pointer page is for.
    fn is_named_place(&self, page: u32, slot: u32, named: u32) -> bool
        ensures { IsTrue result ↔ IsNamedPlace self.now page slot named }
    {
        let pointer = self.cache.place(page);
        let data = self.cache.place(named);
        pointer.kind == 4
            && data.kind == 5
            && data.relation == pointer.relation
            && data.sequence as u64 == pointer.sequence as u64 * self.slots() as u64 + slot as u64
    }

    /// Whether the cell may get a new row.
    fn may_put_row(&self, page: u32, highs: &[u32], cell: u16, content: &Cell) -> bool
        ensures { IsTrue result ↔ MayPutRow self.now page highs.now cell content.now }
    {
        let place = self.cache.place(page);
        place.kind == 5
            && self.cache.flag(page, cell) == Flag::Empty
            && self.is_named(place.relation, place.sequence, page)
            && content.flag == Flag::Primary
            && content.back_page == 0
            && self.is_raised_in_time(page, highs, content.number)
    }

    /// Whether the number may be marked as committed on this page.
    fn may_commit(&self, page: u32, highs: &[u32], number: u32) -> bool
        ensures { IsTrue result ↔ MayCommit self.now page highs.now number }
    {
        self.tip_page(number / self.tip_numbers()) == page
            && page != 0
            && self.cache.is_alone_dirty(page)
            && self.is_raised_in_time(page, highs, number)
    }
}

/// Whether the deed is the taking of the page from the page inventory.
fn is_taking(page: u32, inventory: u32, deed: &Deed) -> bool
    ensures { result ≡ is_taking page inventory deed.now }
{
    match *deed {
        Deed::Taken {
            page: taken,
            inventory: from,
        } => taken == page && from == inventory,
    }
}
