//! The journal as a region alone can lengthen it, with its census.

ghost use Rattle.std.specs.Prelude.{◌≡◌, ◌↔◌, ◌<◌, ◌≤◌, ◌+◌, ◌++◌, ◌∷◌, [], length, IsTrue, IfOk, OnOk};
ghost use Rattle.fbc_kinds.specs.Edits.{IsShape};
ghost use Rattle.fbc_legal.specs.Lives.{entered, entered_step, living};
ghost use Rattle.fbc_region.specs.Adding.{by};
ghost use Rattle.fbc_region.specs.Census.{HasPlace, IsNew, most_owners};
ghost use Rattle.fbc_region.specs.Conditions.{has_name};
ghost use Rattle.fbc_region.specs.Kept.{IsAtRest, LeavesRest};
ghost use Rattle.fbc_world.specs.declared.events.Act.TheVariants as act;
ghost use Rattle.fbc_world.specs.History.{recorded};
ghost use Rattle.fbc_world.specs.Owners.{is_alive};

use crate::census::{Census, LIVING};
use fbc_kinds::{Edit, Reply, Shape};
use fbc_levels::{Level, Resource};
use fbc_world::{Act, Ask, Event, Journal, LocalEvent};
use std::alloc::{AllocError, Global};
use std::marker::Model;

/// A journal that only a region can lengthen, seen by contracts as that journal. In it come no more owners than there are
/// numbers for, and it never ends in an ask whose grant is still due. Beside it stands the census of its owners.
#[derive(Debug, Drop)]
pub struct Chronicle {
    journal: Journal,
    census: Census,
}

impl Model for Chronicle {
    ghost use Rattle.fbc_region.specs.Kept.{IsChronicle};
    ghost use Rattle.fbc_world.specs.History.{Recording};

    ghost Value = { Recording };

    ghost view = { λ c. c.journal };

    ghost invariant = { λ c. IsChronicle c.journal c.census };
}

impl Chronicle {
    /// A chronicle without events, of a file of that shape.
    pub fn new(alloc: Global, shape: &Shape) -> Result<Chronicle, AllocError>
        requires { IsShape shape.now }
        ensures shape { IfOk result (λ chronicle. chronicle.shape ≡ shape.now) }
        ensures events { IfOk result (λ chronicle. chronicle.events ≡ []) }
    {
        let journal = Journal::new(alloc, shape)?;
        let census = Census::new();
        Ok(Chronicle { journal, census })
    }

    /// The journal, to be read.
    pub fn journal(&self) -> &Journal
        ensures journal { result.now ≡ self.now }
        ensures few { entered (recorded self.now) ≤ most_owners }
    {
        &self.journal
    }

    /// A chronicle tells that it does not end within a step, and that no more owners came than there are numbers for.
    pub(crate) fn is_at_rest(&self)
        ensures rests { IsAtRest (recorded self.now) }
        ensures few { entered (recorded self.now) ≤ most_owners }
    {
        let _journal = &self.journal;
    }

    /// Makes room for that many more events.
    pub(crate) fn reserve(&mut self, events: u32) -> Result<(), AllocError>
        ensures ok { OnOk result (events ≤ self.new.spare) }
        ensures spare { self.old.spare ≤ self.new.spare }
        ensures shape { self.new.shape ≡ self.old.shape }
        ensures events { self.new.events ≡ self.old.events }
    {
        self.journal.reserve(events)
    }

    /// Adds an event, for which there is room, and after which no grant is due. Who comes by it is not alive before, and finds a
    /// place.
    pub(crate) fn push(&mut self, event: Event)
        requires room { 0 < self.old.spare }
        requires few { entered_step (entered (recorded self.old)) event.act ≤ most_owners }
        requires place { HasPlace (length (living (recorded self.old))) event.act }
        requires new { IsNew (recorded self.old) event.actor event.act }
        requires rests { LeavesRest (recorded self.old) event.actor event.act }
        ensures spare { self.new.spare + 1 ≡ self.old.spare }
        ensures shape { self.new.shape ≡ self.old.shape }
        ensures events { self.new.events ≡ self.old.events ++ event ∷ [] }
    {
        // The types inside an event are named here for the borrow checker.
        let _told: Option<(&Act, &Ask, &LocalEvent, &Edit, &Reply)> = None;
        self.census.keep_up(event.actor, &event.act);
        self.journal.push(event);
    }

    /// Adds an ask and the grant that follows it at once. There is room for both.
    pub(crate) fn push_granted(
        &mut self,
        owner: u32,
        resource: Resource,
        level: Level,
        wait: bool,
        word: u32,
    )
        requires { 1 < self.old.spare }
        ensures spare { self.new.spare + 2 ≡ self.old.spare }
        ensures shape { self.new.shape ≡ self.old.shape }
        ensures events { self.new.events ≡ self.old.events ++ by owner (act.Ask resource level wait word) ∷ by owner (act.Grant resource level) ∷ [] }
    {
        self.journal.push(Event {
            actor: owner,
            act: Act::Ask {
                resource,
                level,
                wait,
                word,
            },
        });
        self.journal.push(Event {
            actor: owner,
            act: Act::Grant { resource, level },
        });
    }
}

impl Chronicle {
    /// How many owners came.
    pub(crate) fn owners(&self) -> u32
        ensures { result ≡ entered (recorded self.now) }
    {
        self.census.owners
    }

    /// Whether the owner is alive.
    pub(crate) fn is_alive(&self, owner: u32) -> bool
        ensures { result ≡ is_alive (recorded self.now) owner }
    {
        self.census.has(owner)
    }

    /// Whether fewer owners are alive than may be.
    pub(crate) fn has_place(&self) -> bool
        ensures { IsTrue result ↔ (length (living (recorded self.now)) < 8) }
    {
        self.census.count() < LIVING
    }

    /// Whether a living owner came by the name.
    pub(crate) fn has_name(&self, name: u8) -> bool
        ensures { result ≡ has_name (recorded self.now) name }
    {
        self.census.has_name(name)
    }
}
