//! Which steps are due: those that keep what a cache is.

ghost use Rattle.std.specs.Prelude.{◌≡◌, false};
ghost use Rattle.std.specs.List.{list_any};
ghost use Rattle.std.specs.Option.{option_map_or};
ghost use Rattle.fbc_buffers.specs.Holding.{buffer_of, is_waiting};
ghost use Rattle.fbc_levels.specs.Levels.{is_page_level};
ghost use Rattle.fbc_cache.specs.Wants.{is_due, is_idle, is_lock_due, is_lowering_due, is_page_series, is_part, is_unread};
ghost use Rattle.fbc_precedence.specs.Search.{is_blocked};

use crate::cache::Cache;
use crate::wants::suffices;
use fbc_buffers::Buffer;
use fbc_levels::{Level, Resource, Series};
use fbc_world::Ask;

impl Cache {
    /// Whether the step keeps what a cache is.
    pub(crate) fn is_due(&self, ask: &Ask) -> bool
        ensures { result ≡ is_due self.now ask.now }
    {
        match ask {
            Ask::Lock {
                resource,
                level,
                wait: _,
                word: _,
            } => {
                if is_page(*resource) {
                    self.is_lock_due(resource.key, *level)
                } else {
                    !self.waits()
                }
            }
            Ask::Lower { resource, level } => {
                !is_page(*resource) || self.is_lowering_due(resource.key, *level)
            }
            Ask::Read { page } => self.is_unread(*page),
            Ask::Write { page, cause: _ } => self.is_dirty(*page) && !self.is_blocked(*page),
            _ => true,
        }
    }

    /// Whether a lock on the page is due.
    fn is_lock_due(&self, page: u32, level: Level) -> bool
        ensures { result ≡ is_lock_due self.now page level }
    {
        self.buffers.buffer(page).is_none()
            && !self.buffers.is_full()
            && is_page_level(level)
            && !self.waits()
    }

    /// Whether some page is waited for.
    pub fn waits(&self) -> bool
        ensures { result ≡ list_any is_waiting self.now.held }
    {
        self.buffers
            .held()
            .iter()
            .any(|buffer| buffer.wanted.is_some())
    }

    /// Whether the level of the page may be lowered to this one.
    fn is_lowering_due(&self, page: u32, level: Level) -> bool
        ensures { result ≡ is_lowering_due self.now page level }
    {
        self.is_idle(page)
            && !self.is_blocked(page)
            && (level == Level::Free || is_page_level(level))
            && is_part(level, self.level(page))
    }

    /// Whether the page is held, clean and not in use.
    fn is_idle(&self, page: u32) -> bool
        ensures { result ≡ option_map_or is_idle (buffer_of self.now.held page) false }
    {
        match self.buffers.buffer(page) {
            Some(buffer) => is_idle(buffer),
            None => false,
        }
    }

    /// Whether the page is held and has no copy.
    fn is_unread(&self, page: u32) -> bool
        ensures { result ≡ option_map_or is_unread (buffer_of self.now.held page) false }
    {
        match self.buffers.buffer(page) {
            Some(buffer) => buffer.wanted.is_none() && buffer.copy.is_none(),
            None => false,
        }
    }

    /// Whether some page is to be written before this one.
    fn is_blocked(&self, page: u32) -> bool
        ensures { result ≡ is_blocked self.now.pairs page }
    {
        self.graph.blocked(page)
    }
}

/// Whether the page is held, clean and not in use.
fn is_idle(buffer: &Buffer) -> bool
    ensures { result ≡ is_idle buffer.now }
{
    buffer.wanted.is_none() && !buffer.is_dirty && !buffer.is_pinned
}

/// Whether pages are used in the level.
pub(crate) fn is_page_level(level: Level) -> bool
    ensures { result ≡ is_page_level level }
{
    matches!(level, Level::Pr | Level::Ex)
}

/// Whether a page that is held in the second level is held in the first one too.
fn is_part(level: Level, held: Level) -> bool
    ensures { result ≡ is_part level held }
{
    level == Level::Free || suffices(held, level)
}

/// Whether the resource is a page.
pub(crate) fn is_page(resource: Resource) -> bool
    ensures { result ≡ is_page_series resource }
{
    resource.series.is_same(Series::Page)
}
