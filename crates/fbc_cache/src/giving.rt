//! How a page is given up, or held in a lower level.

ghost use Rattle.std.specs.Prelude.{◌≡◌, ◌↔◌, IsTrue, true};
ghost use Rattle.fbc_precedence.specs.Precedence.{ComesBefore, IsNextToWrite};
ghost use Rattle.fbc_cache.specs.Giving.{GivesUp, IsUnsettled};
ghost use Rattle.fbc_cache.specs.Wants.{MayGiveUp, is_due};

use crate::cache::Cache;
use fbc_levels::{Level, Resource};
use fbc_world::{Ask, Cause};

impl Cache {
    /// The next step by which a page is given up, or held in a lower level: the next write in order for this cause, as long
    /// as it is dirty or some page is to be written before it, and then its lowering to that level.
    pub fn step_to_give_up(&self, page: u32, cause: Cause, level: Level) -> Ask
        ensures step { GivesUp self.now page cause level result }
        ensures due { MayGiveUp self.now page level → is_due self.now result ≡ true }
    {
        self.holds();
        if self.is_unsettled(page) {
            Ask::Write {
                page: self.next_to_write(page),
                cause,
            }
        } else {
            Ask::Lower {
                resource: Resource::page(page),
                level,
            }
        }
    }

    /// Whether the page is dirty, or some page is to be written before it.
    pub fn is_unsettled(&self, page: u32) -> bool
        ensures { IsTrue result ↔ IsUnsettled self.now page }
    {
        self.is_dirty(page) || self.graph.blocked(page)
    }

    /// The least page before which none is to be written, among the page and those that are to be written before it.
    pub fn next_to_write(&self, page: u32) -> u32
        ensures { IsNextToWrite self.now.pairs page result }
    {
        self.graph.next_to_write(page)
    }

    /// Whether the first page is to be written before the second, by pairs that lead from the one to the other.
    pub fn leads(&self, high: u32, low: u32) -> bool
        ensures { IsTrue result ↔ ComesBefore self.now.pairs high low }
    {
        self.graph.leads(high, low)
    }
}
