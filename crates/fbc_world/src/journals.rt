//! The journal: the events of a file in the order in which they happened.

ghost use Rattle.std.specs.Prelude.{◌≡◌, ◌^◌, ◌<◌, ◌≤◌, ◌+◌, ◌++◌, ◌∷◌, [], Some, IfOk, OnOk, length, slice_get};
ghost use Rattle.fbc_kinds.specs.Edits.{IsShape};
ghost use Rattle.fbc_world.specs.History.{recorded};
ghost use Rattle.fbc_world.specs.PageCell.{blank_file, kept, newest};
ghost use Rattle.fbc_world.specs.Owners.{granted, is_alive};

use crate::asks::Ask;
use crate::events::{Act, Event, LocalEvent};
use crate::{owners, replays};
use fbc_kinds::{Edit, Page, Reply, Shape};
use fbc_levels::{Level, Resource};
use std::alloc::{AllocError, Global};
use std::marker::Model;

/// The events of a file of one shape, seen by contracts as a `Recording`.
#[derive(Debug, Drop)]
pub struct Journal {
    alloc: Global,
    shape: Shape,
    events: Vec<Event>,
}

impl Model for Journal {
    ghost use Rattle.std.specs.Prelude.{◌-◌, vec_capacity, vec_len};
    ghost use Rattle.fbc_kinds.specs.Edits.{IsShape as is_shape};
    ghost use Rattle.fbc_world.specs.History.{Recording};

    ghost Value = { Recording };

    ghost view = { λ j. record { shape = j.shape; events = j.events.items; spare = vec_capacity j.events - vec_len j.events } };

    ghost invariant = { λ j. is_shape j.shape };
}

/// What has recorded a history.
pub trait Recorded {
    ghost use Rattle.fbc_world.specs.History.{History};

    /// The history, its newest moment first.
    ghost history: { Self → History };
}

impl Recorded for Journal {
    ghost history = { recorded };
}

impl Journal {
    /// A journal without events, of a file of that shape.
    pub fn new(alloc: Global, shape: &Shape) -> Result<Self, AllocError>
        requires { IsShape shape.now }
        ensures shape { IfOk result (λ journal. journal.shape ≡ shape.now) }
        ensures events { IfOk result (λ journal. journal.events ≡ []) }
    {
        Ok(Journal {
            alloc,
            shape: *shape,
            events: Vec::new(alloc),
        })
    }

    /// Makes room for that many more events.
    pub fn reserve(&mut self, events: u32) -> Result<(), AllocError>
        ensures ok { OnOk result (events ≤ self.new.spare) }
        ensures spare { self.old.spare ≤ self.new.spare }
        ensures shape { self.new.shape ≡ self.old.shape }
        ensures events { self.new.events ≡ self.old.events }
    {
        self.events.reserve(events as usize)
    }

    /// Adds an event, for which there is room.
    pub fn push(&mut self, event: Event)
        requires { 0 < self.old.spare }
        ensures spare { self.new.spare + 1 ≡ self.old.spare }
        ensures shape { self.new.shape ≡ self.old.shape }
        ensures events { self.new.events ≡ self.old.events ++ event ∷ [] }
    {
        // The types inside an event are named here for the borrow checker.
        let _told: Option<(&Act, &Ask, &LocalEvent, &Edit, &Reply)> = None;
        self.events.push_reserved(event);
    }

    /// The shape of the file.
    pub fn shape(&self) -> &Shape
        ensures shape { result.now ≡ self.now.shape }
        ensures limits { IsShape result.now }
    {
        &self.shape
    }

    /// The events, in the order in which they happened.
    pub fn events(&self) -> &[Event]
        ensures { result.now ≡ self.now.events }
    {
        self.events.as_slice()
    }

    /// How many events there are.
    pub fn length(&self) -> u64
        ensures length { result ≡ length self.now.events }
        ensures bounded { result < 2 ^ 63 }
    {
        self.events.len() as u64
    }

    /// The event at that place, counted from 0.
    pub fn event(&self, k: u64) -> Result<Event, AllocError>
        requires { k < length self.now.events }
        ensures { IfOk result (λ event. slice_get self.now.events k ≡ Some event) }
    {
        self.events[k as usize].clone()
    }

    /// What the file keeps of the page, replayed over a file of blank pages. An edit that does not fit
    /// changes nothing, and a failed write counts as not landed.
    pub fn kept(&self, page: u32) -> Result<Page, AllocError>
        ensures { IfOk result (λ content. kept self.now.shape blank_file (recorded self.now) page ≡ Some content) }
    {
        let replay = replays::replayed(self.alloc, &self.shape, page, self.events.as_slice())?;
        Ok(replay.into_kept())
    }

    /// The newest content of the page, replayed in the same way: its draft's where it has one, and
    /// otherwise what is kept.
    pub fn newest(&self, page: u32) -> Result<Page, AllocError>
        ensures { IfOk result (λ content. newest self.now.shape blank_file (recorded self.now) page ≡ Some content) }
    {
        let replay = replays::replayed(self.alloc, &self.shape, page, self.events.as_slice())?;
        Ok(replay.into_newest())
    }

    /// The level that the owner is granted on the resource.
    pub fn granted(&self, owner: u32, resource: Resource) -> Level
        ensures { result ≡ granted (recorded self.now) owner resource }
    {
        owners::granted(owner, resource, self.events.as_slice())
    }

    /// Whether the owner is alive.
    pub fn alive(&self, owner: u32) -> bool
        ensures { result ≡ is_alive (recorded self.now) owner }
    {
        owners::is_alive(owner, self.events.as_slice())
    }
}
