//! Which step is due before a page may be used.

ghost use Rattle.std.specs.Prelude.{◌≡◌, ◌<◌, ◌==◌, ◌↔◌, IsTrue, IfOk, length, true, false};
ghost use Rattle.std.specs.List.{filter, find};
ghost use Rattle.std.specs.Option.{option_copied, option_map_or};
ghost use Rattle.fbc_buffers.specs.declared.buffers.Buffer.{Buffer as ABuffer};
ghost use Rattle.fbc_buffers.specs.Holding.{buffer_of, is_pinned, is_waiting};
ghost use Rattle.fbc_cache.specs.declared.needs.Want.TheVariants as wants;
ghost use Rattle.fbc_cache.specs.Wants.{IsDueWant, IsHere, MayWant, Wants, WantsBuffer, is_pinned_below, is_usable, lock_for, suffices, want_held};

use crate::cache::Cache;
use crate::due::is_page_level;
use crate::needs::{Need, Want};
use fbc_buffers::Buffer;
use fbc_levels::{Level, Resource};
use fbc_world::{Ask, Cause};
use std::alloc::AllocError;

impl Cache {
    /// Whether the page may be used, or the step that is due first: the page's own lowering, the next write for its
    /// buffer or the lowering of the page that gives its buffer up, the lock, the look, the read.
    ///
    /// # Errors
    ///
    /// None so far: it takes no memory.
    pub fn want(&mut self, need: Need) -> Result<Want, AllocError>
        requires { MayWant self.old need }
        ensures same { self.new ≡ self.old }
        ensures want { IfOk result (Wants self.old need) }
        ensures here { IfOk result (λ want. (want ≡ wants.Here) ↔ IsHere self.old need) }
        ensures due { IfOk result (IsDueWant self.old) }
    {
        // No page has two buffers, and no other page is waited for: so the one that gives way is held.
        let _held = self.buffers.held();
        Ok(self.step_for(&need))
    }

    /// Whether the page may be used: it is held in a level that does, and is valid or to be formatted.
    pub fn is_here(&self, need: &Need) -> bool
        ensures { IsTrue result ↔ IsHere self.now need.now }
    {
        match self.buffers.buffer(need.page) {
            Some(buffer) => is_usable(need, buffer),
            None => false,
        }
    }

    /// What a need comes to.
    fn step_for(&self, need: &Need) -> Want
        requires { MayWant self.now need.now }
        ensures { Wants self.now need.now result }
    {
        match self.buffers.buffer(need.page) {
            Some(buffer) => want_held(need, buffer),
            None => self.want_buffer(need),
        }
    }

    /// What a page comes to that has no buffer.
    fn want_buffer(&self, need: &Need) -> Want
        requires { MayWant self.now need.now }
        ensures { WantsBuffer self.now need.now (length self.now.held == self.now.room) result }
    {
        if !self.buffers.is_full() {
            return Want::Must(lock_for(need));
        }
        match self.buffers.victim() {
            Some(victim) => Want::Must(self.step_to_give_up(
                victim,
                Cause::Evict { wanted: need.page },
                Level::Free,
            )),
            None => Want::Must(lock_for(need)),
        }
    }

    /// Whether a page may be needed: for another page than one that is waited for it may not, nor where it is pinned in a
    /// level that does not do, nor where all buffers are pinned.
    pub fn may_want(&self, need: &Need) -> bool
        ensures { IsTrue result ↔ MayWant self.now need.now }
    {
        is_page_level(need.level)
            && !self.is_pinned_below(need)
            && self.is_alone(need.page)
            && self.has_loose()
    }

    /// Whether the page is pinned in a level that does not do.
    fn is_pinned_below(&self, need: &Need) -> bool
        ensures { result ≡ option_map_or (is_pinned_below need.now.level) (buffer_of self.now.held need.now.page) false }
    {
        match self.buffers.buffer(need.page) {
            Some(buffer) => buffer.is_pinned && !suffices(buffer.level, need.level),
            None => false,
        }
    }

    /// Whether no page but this one is waited for.
    fn is_alone(&self, page: u32) -> bool
        ensures { result ≡ option_map_or (λ (b : ABuffer). b.page == page) (find is_waiting self.now.held) true }
    {
        match self.waiting() {
            Some(buffer) => buffer.page == page,
            None => true,
        }
    }

    /// The buffer of the page that is waited for.
    fn waiting(&self) -> Option<&Buffer>
        ensures { option_copied result ≡ find is_waiting self.now.held }
    {
        self.buffers
            .held()
            .iter()
            .find(|buffer| buffer.wanted.is_some())
    }

    /// Whether fewer pages are pinned than there are buffers.
    fn has_loose(&self) -> bool
        ensures { IsTrue result ↔ (length (filter is_pinned self.now.held) < self.now.room) }
    {
        !self.buffers.is_full() || self.buffers.victim().is_some()
    }
}

/// The lock of a page.
fn lock_for(need: &Need) -> Ask
    ensures { result ≡ lock_for need.now }
{
    Ask::Lock {
        resource: Resource::page(need.page),
        level: need.level,
        wait: need.wait,
        word: 0,
    }
}

/// What a page comes to that has a buffer.
fn want_held(need: &Need, buffer: &Buffer) -> Want
    ensures { result ≡ want_held need.now buffer.now }
{
    if buffer.wanted.is_some() {
        return Want::Must(Ask::Look);
    }
    if !suffices(buffer.level, need.level) {
        return Want::Must(Ask::Lower {
            resource: Resource::page(need.page),
            level: Level::Free,
        });
    }
    if buffer.copy.is_some() || need.fresh {
        return Want::Here;
    }
    Want::Must(Ask::Read { page: need.page })
}

/// Whether the page of this buffer may be used.
fn is_usable(need: &Need, buffer: &Buffer) -> bool
    ensures { result ≡ is_usable need.now buffer.now }
{
    buffer.wanted.is_none()
        && suffices(buffer.level, need.level)
        && (buffer.copy.is_some() || need.fresh)
}

/// Whether a page that is held in the first level may be used in the second.
pub(crate) fn suffices(held: Level, wanted: Level) -> bool
    ensures { result ≡ suffices held wanted }
{
    match held {
        Level::Ex => true,
        Level::Pr => matches!(wanted, Level::Pr),
        _ => false,
    }
}
