//! What is held of a page, and which dirty page is written next.

ghost use Rattle.std.specs.Prelude.{◌≡◌, ◌↔◌, IsTrue, Some};
ghost use Rattle.std.specs.List.{find, list_all};
ghost use Rattle.std.specs.Option.{option_copied};
ghost use Rattle.fbc_buffers.specs.declared.buffers.Buffer.{Buffer as ABuffer};
ghost use Rattle.fbc_buffers.specs.Holding.{AreApart};
ghost use Rattle.fbc_cache.specs.Cache.{is_dirty_in, is_granted_in};
ghost use Rattle.fbc_cache.specs.Edits.{IsFree, IsLeastDirty, IsNextDirty, is_clean_beside};

use crate::cache::Cache;
use fbc_buffers::Buffer;

impl Cache {
    /// Whether the page is held, as far as it was learnt.
    pub fn is_granted(&self, page: u32) -> bool
        ensures { result ≡ is_granted_in self.now.held page }
    {
        match self.buffers.buffer(page) {
            Some(buffer) => buffer.wanted.is_none(),
            None => false,
        }
    }

    /// Whether the page was edited and not written since.
    pub fn is_dirty(&self, page: u32) -> bool
        ensures { result ≡ is_dirty_in self.now.held page }
    {
        match self.buffers.buffer(page) {
            Some(buffer) => buffer.is_dirty,
            None => false,
        }
    }

    /// Whether no other page is dirty.
    pub fn is_alone_dirty(&self, page: u32) -> bool
        ensures { result ≡ list_all (is_clean_beside page) self.now.held }
    {
        self.buffers
            .held()
            .iter()
            .all(|buffer| buffer.page == page || !buffer.is_dirty)
    }

    /// The least dirty page before which no dirty page is to be written; none where none is dirty.
    pub fn dirty(&self) -> Option<u32>
        ensures { IsLeastDirty self.now result }
    {
        match self.first_dirty() {
            Some(buffer) => Some(self.least_next(self.graph.next_to_write(buffer.page))),
            None => None,
        }
    }

    /// The dirty buffer whose last use is longest ago.
    fn first_dirty(&self) -> Option<&Buffer>
        ensures first { option_copied result ≡ find (λ (b : ABuffer). b.is_dirty) self.now.held }
        ensures apart { AreApart self.now.held }
    {
        self.buffers.held().iter().find(|buffer| buffer.is_dirty)
    }

    /// The least of this page and of the other dirty pages before which no dirty page is to be written.
    fn least_next(&self, next: u32) -> u32
        requires { IsNextDirty self.now next }
        ensures { IsLeastDirty self.now (Some result) }
    {
        let mut least = next;
        for buffer in self.buffers.held() {
            if self.is_next(buffer) {
                least = least.min(buffer.page);
            }
        }
        least
    }

    /// Whether the buffer is dirty, and no page is to be written before its own.
    fn is_next(&self, buffer: &Buffer) -> bool
        ensures { IsTrue result ↔ IsFree self.now.pairs buffer.now }
    {
        buffer.is_dirty && !self.graph.blocked(buffer.page)
    }
}
