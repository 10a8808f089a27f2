//! The cache, and the calls on one of its pages.

ghost use Rattle.std.specs.Prelude.{◌≡◌, [], IfOk};
ghost use Rattle.std.specs.Option.{option_copied};
ghost use Rattle.fbc_buffers.specs.Holding.{IsHolding, victim_of};
ghost use Rattle.fbc_kinds.specs.HeaderSpelling.{IsFileShape};
ghost use Rattle.fbc_cache.specs.Cache.{CacheState, IsCache, copy_in, is_pinned_in};
ghost use Rattle.fbc_cache.specs.Use.{after_mark, after_pin, after_unpin};

use crate::remembered::Remembered;
use fbc_buffers::Buffers;
use fbc_kinds::{Edge, Page, Shape};
use fbc_levels::Callback;
use fbc_precedence::Graph;
use std::alloc::{AllocError, Global};
use std::marker::Model;

/// The page cache of one attachment, seen as what it keeps.
#[derive(Drop)]
pub struct Cache {
    pub(crate) alloc: Global,
    pub(crate) shape: Shape,
    pub(crate) buffers: Buffers,
    pub(crate) graph: Graph,
    pub(crate) remembered: Remembered,
}

impl Model for Cache {
    ghost use Rattle.fbc_kinds.specs.HeaderSpelling.{IsFileShape};
    ghost use Rattle.fbc_cache.specs.Cache.{CacheState, IsCache};
    ghost use Rattle.std.specs.Prelude.{◌≡◌};

    ghost Value = { CacheState };

    ghost view = { λ c. record { shape = c.shape; room = c.buffers.room; held = c.buffers.held; pairs = c.graph.pairs; pointers = c.remembered } };

    ghost invariant = { λ c. IsFileShape c.shape × (c.graph.buffers ≡ c.buffers.room)
        × IsCache (record { shape = c.shape; room = c.buffers.room; held = c.buffers.held; pairs = c.graph.pairs; pointers = c.remembered }) };
}

impl Cache {
    /// A cache of so many buffers for the pages of a file of that shape. It holds nothing.
    ///
    /// # Errors
    ///
    /// Want of memory, and more than 512 buffers.
    pub fn new(alloc: Global, buffers: u32, shape: Shape) -> Result<Cache, AllocError>
        requires shape { IsFileShape shape }
        ensures { IfOk result (λ cache. cache ≡ record { shape = shape; room = buffers; held = []; pairs = []; pointers = [] }) }
    {
        Ok(Cache {
            alloc,
            shape,
            buffers: Buffers::new(alloc, buffers)?,
            graph: Graph::new(alloc, buffers)?,
            remembered: Remembered::new(alloc)?,
        })
    }

    /// The shape of the file.
    pub fn shape(&self) -> &Shape
        ensures shape { result.now ≡ self.now.shape }
        ensures file { IsFileShape result.now }
    {
        &self.shape
    }

    /// Bytes of a page.
    pub fn page_size(&self) -> u32
        ensures { result ≡ self.now.shape.size }
    {
        self.shape.size
    }

    /// The page is in use, if it is held. It is the last one used.
    pub fn pin(&mut self, page: u32)
        ensures { self.new ≡ after_pin self.old page }
    {
        self.holds();
        if self.is_granted(page) {
            self.buffers.set_pinned(page, true);
            self.buffers.touch(page);
        }
    }

    /// The page is in use no more.
    pub fn unpin(&mut self, page: u32)
        ensures { self.new ≡ after_unpin self.old page }
    {
        self.buffers.set_pinned(page, false);
    }

    /// Somebody asks for the page: its buffer is marked. No call tells the mark yet.
    pub fn mark_blocking(&mut self, callback: Callback)
        ensures { self.new ≡ after_mark self.old callback.page }
    {
        self.buffers.set_blocking(callback.page, true);
    }

    /// What a cache is holds of it: there are no more buffers than there is room for, and one for each page, its levels,
    /// copies and pairs are as `IsCache` says, and its shape is a file's. It does nothing when it is run.
    pub fn holds(&self)
        ensures holding { IsHolding (record { room = self.now.room; held = self.now.held }) }
        ensures cache { IsCache self.now }
        ensures file { IsFileShape self.now.shape }
    {
        let _held = self.buffers.held();
    }

    /// The pairs of pages of which the first is to be written before the second, the oldest first.
    pub fn pairs(&self) -> &[Edge]
        ensures { result.now ≡ self.now.pairs }
    {
        self.graph.pairs()
    }

    /// Whether the page is in use.
    pub fn pinned(&self, page: u32) -> bool
        ensures { result ≡ is_pinned_in self.now.held page }
    {
        match self.buffers.buffer(page) {
            Some(buffer) => buffer.is_pinned,
            None => false,
        }
    }

    /// What may be used of the page. Only the cache takes a page apart: its readers tell what stands in one.
    pub(crate) fn page(&self, page: u32) -> Option<&Page>
        ensures { option_copied result ≡ copy_in self.now.held page }
    {
        match self.buffers.buffer(page) {
            Some(buffer) => buffer.copy.as_ref(),
            None => None,
        }
    }

    /// Of the pages that are not in use the one whose last use is longest ago; none where all are in use.
    pub fn victim(&self) -> Option<u32>
        ensures { result ≡ victim_of self.now.held }
    {
        self.buffers.victim()
    }
}
