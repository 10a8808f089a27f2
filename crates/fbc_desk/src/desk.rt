//! The desk, and what it hands out.

ghost use Rattle.std.specs.Prelude.{◌≡◌, ◌≤◌, [], None, false, IfOk, length};
ghost use Rattle.fbc_kinds.specs.HeaderSpelling.{IsFileShape};
ghost use Rattle.fbc_cache.specs.Cache.{IsCache};

use crate::own::{Deed, Own};
use fbc_cache::Cache;
use fbc_kinds::Shape;
use fbc_notes::Note;
use fbc_world::LocalEvent;
use std::alloc::{AllocError, Global};
use std::marker::Model;

/// How many local events one step carries.
pub(crate) const MOST_EVENTS: usize = 64;

/// How many notes and how many deeds have a place.
pub(crate) const MOST_NOTES: usize = 64;

pub(crate) const MOST_DEEDS: usize = 8;

/// What one attachment keeps between its steps. It takes its memory whole at the beginning.
#[derive(Drop)]
pub struct Desk {
    pub(crate) cache: Cache,
    pub(crate) unsent: Vec<LocalEvent>,
    pub(crate) is_spilled: bool,
    pub(crate) tips: Vec<u32>,
    pub(crate) counted: u16,
    pub(crate) written: u16,
    pub(crate) notes: Vec<Note>,
    pub(crate) deeds: Vec<Deed>,
    pub(crate) own: Option<Own>,
}

impl Model for Desk {
    ghost use Rattle.std.specs.Prelude.{◌≤◌, length, vec_capacity};
    ghost use Rattle.fbc_desk.specs.Desk.{DeskState, HasPlaces};

    ghost Value = { DeskState };

    ghost view = { λ d. record {
      cache = d.cache;
      unsent = d.unsent.items;
      is_spilled = d.is_spilled;
      tips = d.tips.items;
      counted = d.counted;
      written = d.written;
      notes = d.notes.items;
      deeds = d.deeds.items;
      own = d.own;
    } };

    ghost invariant = { λ d. HasPlaces 64 (length d.unsent.items) (vec_capacity d.unsent) × HasPlaces 16 (length d.tips.items) (vec_capacity d.tips)
        × HasPlaces 64 (length d.notes.items) (vec_capacity d.notes) × HasPlaces 8 (length d.deeds.items) (vec_capacity d.deeds) };
}

impl Desk {
    /// A desk of so many buffers for the pages of a file of that shape. It holds nothing, and no transaction is open.
    ///
    /// # Errors
    ///
    /// Want of memory, and more than 512 buffers.
    pub fn new(alloc: Global, buffers: u32, shape: Shape) -> Result<Desk, AllocError>
        requires shape { IsFileShape shape }
        ensures { IfOk result (λ desk. desk ≡ record {
          cache = record { shape = shape; room = buffers; held = []; pairs = []; pointers = [] };
          unsent = [];
          is_spilled = false;
          tips = [];
          counted = 0;
          written = 0;
          notes = [];
          deeds = [];
          own = None;
        }) }
    {
        Ok(Desk {
            cache: Cache::new(alloc, buffers, shape)?,
            unsent: Vec::with_capacity(alloc, MOST_EVENTS)?,
            is_spilled: false,
            tips: Vec::with_capacity(alloc, 16)?,
            counted: 0,
            written: 0,
            notes: Vec::with_capacity(alloc, MOST_NOTES)?,
            deeds: Vec::with_capacity(alloc, MOST_DEEDS)?,
            own: None,
        })
    }

    /// The cache, to be read.
    pub fn cache(&self) -> &Cache
        ensures { result.now ≡ self.now.cache }
    {
        &self.cache
    }

    /// What was done since the last step.
    pub fn unsent(&self) -> &[LocalEvent]
        ensures events { result.now ≡ self.now.unsent }
        ensures few { length result.now ≤ 64 }
    {
        &self.unsent
    }

    /// Whether something was done for which there was no place.
    pub fn is_spilled(&self) -> bool
        ensures { result ≡ self.now.is_spilled }
    {
        self.is_spilled
    }

    /// The open transaction, if there is one.
    pub fn own(&self) -> &Option<Own>
        ensures { result.now ≡ self.now.own }
    {
        &self.own
    }

    /// What a desk is holds of it. It does nothing when it is run.
    pub fn holds(&self)
        ensures cache { IsCache self.now.cache }
        ensures file { IsFileShape self.now.cache.shape }
        ensures few { length self.now.unsent ≤ 64 }
    {
        self.cache.holds();
    }
}
