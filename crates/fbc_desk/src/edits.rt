//! Edits that pass their tests.

ghost use Rattle.std.specs.Prelude.{◌≡◌, ◌↔◌, ◌++◌, ◌∷◌, ◌≤◌, ◌<◌, ◌+◌, ◌-◌, ◌^◌, [], IfOk, IsTrue, OnErr, drop, length, not, vec_capacity, vec_len};
ghost use Rattle.std.specs.List.{filter};
ghost use Rattle.fbc_kinds.specs.Edits.{HasCellNumbers, IsEdit};
ghost use Rattle.fbc_kinds.specs.Limits.{number_limit};
ghost use Rattle.fbc_world.specs.declared.events.LocalEvent.TheVariants as events;
ghost use Rattle.fbc_desk.specs.declared.own.Deed.{Deed as ADeed};
ghost use Rattle.fbc_desk.specs.declared.own.Deed.TheVariants as deeds;
ghost use Rattle.fbc_desk.specs.Calls.{EditComesTo, GoesOn, HasPlace, MayMake, befores};
ghost use Rattle.fbc_desk.specs.Desk.{with_cache};
ghost use Rattle.fbc_desk.specs.Grounds.{deeds_after, own_after, own_remembers, takes};

use crate::desk::{Desk, MOST_DEEDS, MOST_EVENTS};
use crate::own::{Deed, Own};
use fbc_cache::Edited;
use fbc_kinds::{Cell, Edge, Edit, State};
use fbc_world::LocalEvent;
use std::alloc::AllocError;

/// What an edit comes to.
#[derive(Clone, Copy, Debug, PartialEq, Eq)]
pub enum Made {
    /// It is made.
    Done,
    /// It is not made: the page is to be written first, before this high page.
    WriteFirst { page: u32, high: u32 },
    /// It is not made: it does not have its grounds, or no place.
    Refused,
}

impl Desk {
    /// Makes an edit that has its grounds, on a page that is in use and held in EX. Those of the high pages that are dirty
    /// are to be written before it from now on. Where it is to be written before one of them, nothing is edited.
    ///
    /// # Errors
    ///
    /// Want of memory: the desk is then as it was.
    pub fn edit(&mut self, page: u32, edit: Edit, highs: &[u32]) -> Result<Made, AllocError>
        ensures made { IfOk result (EditComesTo self.old self.new page edit highs.now) }
        ensures goes { GoesOn self.old self.new }
        ensures err { OnErr result (self.new ≡ self.old) }
    {
        self.edit_tested(page, edit, highs)
    }

    /// Makes an edit that passes its tests.
    fn edit_tested(&mut self, page: u32, edit: Edit, highs: &[u32]) -> Result<Made, AllocError>
        ensures made { IfOk result (EditComesTo self.old self.new page edit highs.now) }
        ensures err { OnErr result (self.new ≡ self.old) }
    {
        if self.may_make(page, &edit, highs)? {
            self.edit_granted(page, &edit, highs)
        } else {
            Ok(Made::Refused)
        }
    }

    /// Makes an edit that may be made.
    fn edit_granted(&mut self, page: u32, edit: &Edit, highs: &[u32]) -> Result<Made, AllocError>
        requires may { MayMake self.old page edit.now highs.now }
        ensures made { IfOk result (EditComesTo self.old self.new page edit.now highs.now) }
        ensures err { OnErr result (self.new ≡ self.old) }
    {
        let known = self.cache.pairs().len();
        match self.cache.edit(page, *edit, highs)? {
            Edited::Done => {
                self.add_pairs(known);
                self.finish(page, edit);
                Ok(Made::Done)
            }
            Edited::WriteFirst { page, high } => {
                self.add_pairs(known);
                Ok(Made::WriteFirst { page, high })
            }
        }
    }

    /// Whether an edit may be made: the page is in use and held in EX, the edit fits it, has its grounds, and has a place.
    pub fn may_make(&self, page: u32, edit: &Edit, highs: &[u32]) -> Result<bool, AllocError>
        ensures { IfOk result (λ may. IsTrue may ↔ MayMake self.now page edit.now highs.now) }
    {
        has_numbers(edit);
        if !self.has_place(highs.len()) || !self.has_grounds(page, edit, highs) {
            return Ok(false);
        }
        self.cache.may_edit(page, edit)
    }

    /// Whether there is a place for an edit with so many pairs, and for a deed.
    fn has_place(&self, pairs: usize) -> bool
        ensures { IsTrue result ↔ HasPlace self.now pairs }
    {
        pairs < MOST_EVENTS - self.unsent.len() && self.deeds.len() < MOST_DEEDS
    }

    /// The pairs behind so many are so many events more.
    fn add_pairs(&mut self, known: usize)
        requires known { known ≤ length self.old.cache.pairs }
        requires place { length self.old.unsent + (length self.old.cache.pairs - known) ≤ 64 }
        ensures { self.new ≡ record self.old { unsent = self.old.unsent ++ befores (drop known self.old.cache.pairs) } }
    {
        push_pairs(&mut self.unsent, &self.cache.pairs()[known..]);
    }

    /// The edit is made: it is an event, and what it did is remembered.
    fn finish(&mut self, page: u32, edit: &Edit)
        requires place { length self.old.unsent < 64 }
        requires deed { length self.old.deeds < 8 }
        ensures { self.new ≡ record (with_cache self.old self.old.cache) {
          unsent = self.old.unsent ++ events.Edit page edit.now ∷ [];
          deeds = deeds_after page edit.now self.old.deeds;
          own = own_after edit.now self.old.own;
        } }
    {
        self.learn();
        self.push(LocalEvent::Edit { page, edit: *edit });
        self.add_deed(page, edit);
        self.remember(edit);
    }

    /// What the edit did is remembered, where later edits rest on it.
    fn add_deed(&mut self, page: u32, edit: &Edit)
        requires deed { length self.old.deeds < 8 }
        ensures { self.new ≡ record self.old { deeds = deeds_after page edit.now self.old.deeds } }
    {
        match *edit {
            Edit::TakePage { page: taken } => self.push_deed(taken, page),
            Edit::Name {
                slot: _,
                page: named,
            } => forget_taking(&mut self.deeds, named),
            _ => {}
        }
    }

    /// The open transaction, if there is one, remembers the edit.
    fn remember(&mut self, edit: &Edit)
        ensures { self.new ≡ record self.old { own = own_after edit.now self.old.own } }
    {
        if let Some(own) = &mut self.own {
            remember(own, edit);
        }
    }

    /// One page more was taken.
    fn push_deed(&mut self, page: u32, inventory: u32)
        requires deed { length self.old.deeds < 8 }
        ensures { self.new ≡ record self.old { deeds = self.old.deeds ++ deeds.Taken page inventory ∷ [] } }
    {
        self.deeds.push(Deed::Taken { page, inventory }).unwrap();
    }
}

/// The numbers of an edit are such as bytes hold. It does nothing when it is run.
fn has_numbers(edit: &Edit)
    ensures { IsEdit edit.now }
{
    match *edit {
        Edit::AddTip { page } => is_number(page),
        Edit::AddPointer { relation: _, page } => is_number(page),
        Edit::Name { slot: _, page } => is_number(page),
        Edit::PutCell {
            cell: _,
            ref content,
        } => has_cell_numbers(content),
        Edit::Format {
            kind: _,
            page,
            relation: _,
            sequence,
        } => are_numbers(page, sequence),
        _ => {}
    }
}

/// Likewise of a version.
fn has_cell_numbers(content: &Cell)
    ensures { HasCellNumbers content.now }
{
    are_numbers(content.number, content.back_page);
    is_place(content.back_cell);
}

/// Two numbers of four bytes each.
fn are_numbers(first: u32, second: u32)
    ensures first { first < number_limit }
    ensures second { second < number_limit }
{
    is_number(first);
    is_number(second);
}

/// A number of four bytes.
fn is_number(number: u32)
    ensures { number < number_limit }
{}

/// A place of two bytes.
fn is_place(place: u16)
    ensures { place < 2 ^ 16 }
{}

/// The page is one of those that were taken no more.
fn forget_taking(deeds: &mut Vec<Deed>, page: u32)
    ensures items { deeds.new.items ≡ filter (λ (d : ADeed). not (takes page d)) deeds.old.items }
    ensures len { vec_len deeds.new ≤ vec_len deeds.old }
    ensures capacity { vec_capacity deeds.new ≡ vec_capacity deeds.old }
{
    deeds.retain(|deed| !deed.takes(page));
}

/// The open transaction after an edit.
fn remember(own: &mut Own, edit: &Edit)
    ensures { own.new ≡ own_remembers edit.now own.old }
{
    match *edit {
        Edit::SetNext { next: _ } => own.is_raised = true,
        Edit::Mark {
            number: _,
            state: State::Committed,
        } => own.is_sealed = true,
        _ => {}
    }
}

/// Each pair is one event more.
fn push_pairs(unsent: &mut Vec<LocalEvent>, pairs: &[Edge])
    requires place { vec_len unsent.old + length pairs.now ≤ vec_capacity unsent.old }
    ensures events { unsent.new.items ≡ unsent.old.items ++ befores pairs.now }
    ensures capacity { vec_capacity unsent.old ≤ vec_capacity unsent.new }
{
    for pair in pairs {
        push_pair(unsent, *pair);
    }
}

/// A pair is one event more.
fn push_pair(unsent: &mut Vec<LocalEvent>, pair: Edge)
    requires place { vec_len unsent.old < vec_capacity unsent.old }
    ensures events { unsent.new.items ≡ unsent.old.items ++ events.Before pair.high pair.low ∷ [] }
    ensures len { vec_len unsent.new ≡ vec_len unsent.old + 1 }
    ensures capacity { vec_capacity unsent.old ≤ vec_capacity unsent.new }
{
    // The borrow checker is told of this type, of which an event may be made.
    let _told: Option<&Edit> = None;
    unsent
        .push(LocalEvent::Before {
            high: pair.high,
            low: pair.low,
        })
        .unwrap();
}
