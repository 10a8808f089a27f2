//! The buffers and their calls.

ghost use Rattle.std.specs.Prelude.{◌≡◌, ◌↔◌, ◌<◌, ◌≤◌, ◌++◌, ◌∷◌, [], None, IsTrue, IfOk, IfSome, length, map, not};
ghost use Rattle.std.specs.List.{filter, position_from};
ghost use Rattle.std.specs.Option.{option_copied};
ghost use Rattle.fbc_buffers.specs.Holding.{Holding, IsHolding, buffer_of, granted_buffer, granted_wait, is_of, is_waiting, touched, victim_of, waiting_buffer, with_blocking, with_change, with_copy, with_dirt, with_level, with_pin, without};

use crate::buffers::Buffer;
use crate::changes::{self, Change};
use fbc_kinds::Page;
use fbc_levels::Level;
use std::alloc::{AllocError, Global};
use std::marker::Model;

/// The buffers of one attachment, seen as how many there are and those in use, the one whose last use is longest ago
/// first. Each page has one at most.
#[derive(Debug, Drop)]
pub struct Buffers {
    room: u32,
    held: Vec<Buffer>,
}

impl Model for Buffers {
    ghost use Rattle.std.specs.Prelude.{◌≤◌, vec_capacity};
    ghost use Rattle.fbc_buffers.specs.Holding.{Holding, IsHolding};

    ghost Value = { Holding };

    ghost view = { λ b. record { room = b.room; held = b.held.items } };

    ghost invariant = { λ b. IsHolding (record { room = b.room; held = b.held.items }) × (b.room ≤ vec_capacity b.held) };
}

impl Buffers {
    /// So many buffers, none of them in use, with all the memory that their list will ever take.
    pub fn new(alloc: Global, room: u32) -> Result<Buffers, AllocError>
        ensures { IfOk result (λ buffers. buffers ≡ record { room = room; held = [] }) }
    {
        let held = Vec::with_capacity(alloc, room as usize)?;
        Ok(Buffers { room, held })
    }

    /// The buffers in use, the one whose last use is longest ago first.
    pub fn held(&self) -> &[Buffer]
        ensures held { result.now ≡ self.now.held }
        ensures holding { IsHolding self.now }
    {
        &self.held
    }

    /// The buffer of the page.
    pub fn buffer(&self, page: u32) -> Option<&Buffer>
        ensures { option_copied result ≡ buffer_of self.now.held page }
    {
        self.held.iter().find(|buffer| buffer.page == page)
    }

    /// The place of the page's buffer in the order of use.
    fn place(&self, page: u32) -> Option<usize>
        ensures place { result ≡ position_from (is_of page) 0 self.now.held }
        ensures within { IfSome result (λ at. at < length self.now.held) }
    {
        self.held.iter().position(|buffer| buffer.page == page)
    }

    /// Whether all buffers are in use.
    pub fn is_full(&self) -> bool
        ensures full { IsTrue result ↔ (length self.now.held ≡ self.now.room) }
        ensures few { length self.now.held ≤ self.now.room }
    {
        self.held.len() == self.room as usize
    }

    /// Of the pages that are not pinned the one whose last use is longest ago.
    pub fn victim(&self) -> Option<u32>
        ensures { result ≡ victim_of self.now.held }
    {
        self.held
            .iter()
            .find(|buffer| !buffer.is_pinned)
            .map(|buffer| buffer.page)
    }

    /// A page is granted, which has no buffer.
    pub fn add_granted(&mut self, page: u32, level: Level)
        requires absent { buffer_of self.old.held page ≡ None }
        requires room { length self.old.held < self.old.room }
        ensures { self.new ≡ record self.old { held = self.old.held ++ granted_buffer page level ∷ [] } }
    {
        self.add(Buffer {
            page,
            level,
            wanted: None,
            copy: None,
            is_dirty: false,
            is_pinned: false,
            is_blocking: false,
        });
    }

    /// A page is waited for, which has no buffer.
    pub fn add_waiting(&mut self, page: u32, level: Level)
        requires absent { buffer_of self.old.held page ≡ None }
        requires room { length self.old.held < self.old.room }
        ensures { self.new ≡ record self.old { held = self.old.held ++ waiting_buffer page level ∷ [] } }
    {
        self.add(Buffer {
            page,
            level: Level::Free,
            wanted: Some(level),
            copy: None,
            is_dirty: false,
            is_pinned: false,
            is_blocking: false,
        });
    }

    /// Puts a buffer behind the others.
    fn add(&mut self, buffer: Buffer)
        requires absent { buffer_of self.old.held buffer.page ≡ None }
        requires room { length self.old.held < self.old.room }
        ensures { self.new ≡ record self.old { held = self.old.held ++ buffer ∷ [] } }
    {
        self.held.push(buffer).unwrap();
    }

    /// The page is used: its buffer becomes the last.
    pub fn touch(&mut self, page: u32)
        ensures { self.new ≡ record self.old { held = touched page self.old.held } }
    {
        if let Some(at) = self.place(page) {
            let buffer = self.held.remove(at);
            self.held.push(buffer).unwrap();
        }
    }

    /// The page has a buffer no more.
    pub fn remove(&mut self, page: u32)
        ensures { self.new ≡ record self.old { held = without page self.old.held } }
    {
        changes::remove(&mut self.held, page);
    }

    /// What is waited for is granted.
    pub fn grant_wait(&mut self)
        ensures { self.new ≡ record self.old { held = map granted_wait self.old.held } }
    {
        changes::grant_all(&mut self.held);
    }

    /// Nothing is waited for any more.
    pub fn drop_wait(&mut self)
        ensures { self.new ≡ record self.old { held = filter (λ b. not (is_waiting b)) self.old.held } }
    {
        changes::remove_waiting(&mut self.held);
    }
}

impl Buffers {
    /// The page is granted that level.
    pub fn set_level(&mut self, page: u32, level: Level)
        ensures { self.new ≡ record self.old { held = map (with_level page level) self.old.held } }
    {
        self.change(page, Change::Level(level));
    }

    /// The page has that copy.
    pub fn set_copy(&mut self, page: u32, copy: Option<Page>)
        ensures { self.new ≡ record self.old { held = map (with_copy page copy) self.old.held } }
    {
        self.change(page, Change::Copy(copy));
    }

    /// The page is dirty, or not.
    pub fn set_dirty(&mut self, page: u32, is_dirty: bool)
        ensures { self.new ≡ record self.old { held = map (with_dirt page is_dirty) self.old.held } }
    {
        self.change(page, Change::Dirty(is_dirty));
    }

    /// The page is pinned, or not.
    pub fn set_pinned(&mut self, page: u32, is_pinned: bool)
        ensures { self.new ≡ record self.old { held = map (with_pin page is_pinned) self.old.held } }
    {
        self.change(page, Change::Pinned(is_pinned));
    }

    /// The page is asked for while it is in use, or not.
    pub fn set_blocking(&mut self, page: u32, is_blocking: bool)
        ensures { self.new ≡ record self.old { held = map (with_blocking page is_blocking) self.old.held } }
    {
        self.change(page, Change::Blocking(is_blocking));
    }

    /// Changes the buffer of the page.
    fn change(&mut self, page: u32, change: Change)
        ensures { self.new ≡ record self.old { held = map (with_change page change) self.old.held } }
    {
        if let Some(at) = self.place(page) {
            changes::apply(&mut self.held[at], change);
        }
    }
}
