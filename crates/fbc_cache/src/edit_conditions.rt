//! Whether a page may be edited, and in which level it is held.

ghost use Rattle.std.specs.Prelude.{◌≡◌, ◌↔◌, IfOk, IsTrue, true, is_some};
ghost use Rattle.fbc_levels.specs.declared.levels.Level.TheVariants.{Ex};
ghost use Rattle.fbc_cache.specs.Cache.{level_in};
ghost use Rattle.fbc_cache.specs.Edits.{MayEdit, page_after};

use crate::cache::Cache;
use fbc_apply::apply;
use fbc_kinds::{ApplyFault, Edit};
use fbc_levels::Level;
use std::alloc::AllocError;

impl Cache {
    /// The level in which the page is held; none of them where it is not.
    pub fn level(&self, page: u32) -> Level
        ensures { result ≡ level_in self.now.held page }
    {
        match self.buffers.buffer(page) {
            Some(buffer) => buffer.level,
            None => Level::Free,
        }
    }

    /// Whether the page is held in EX and in use, and the edit fits it.
    ///
    /// # Errors
    ///
    /// Want of memory.
    pub fn may_edit(&self, page: u32, edit: &Edit) -> Result<bool, AllocError>
        ensures { IfOk result (λ may. IsTrue may ↔ MayEdit self.now page edit.now) }
    {
        if self.level(page) == Level::Ex && self.pinned(page) {
            self.fits(page, edit)
        } else {
            Ok(false)
        }
    }

    /// Whether the edit fits the page.
    fn fits(&self, page: u32, edit: &Edit) -> Result<bool, AllocError>
        ensures { IfOk result (λ fits. fits ≡ is_some (page_after self.now page edit.now)) }
    {
        let mut content = self.content(page)?;
        match apply(self.alloc, &self.shape, edit, &mut content) {
            Ok(()) => Ok(true),
            Err(ApplyFault::Unfit) => Ok(false),
            Err(ApplyFault::Memory) => Err(AllocError),
        }
    }
}
