//! Edits of pages in the cache.

ghost use Rattle.std.specs.Prelude.{◌≡◌, Option, IfOk, OnErr, true, is_some, Some, None, List};
ghost use Rattle.fbc_kinds.specs.declared.edges.Edge.{Edge as AnEdge};
ghost use Rattle.fbc_kinds.specs.declared.edits.Edit.{Edit as AnEdit};
ghost use Rattle.fbc_kinds.specs.Edits.{IsWithinLimits, applied};
ghost use Rattle.fbc_levels.specs.declared.levels.Level.TheVariants.{Ex};
ghost use Rattle.fbc_cache.specs.Cache.{is_pinned_in, level_in};
ghost use Rattle.fbc_cache.specs.Edits.{Edits, Relates, RelatesTo, is_write_first, needs_pair, page_after, with_edit};

use crate::cache::Cache;
use fbc_apply::{apply, copied};
use fbc_kinds::{ApplyFault, Edit, Page};
use fbc_precedence::{Related, pages_are_few};
use std::alloc::AllocError;

/// What an edit comes to.
#[derive(Clone, Copy, Debug, PartialEq, Eq)]
pub enum Edited {
    /// It is made.
    Done,
    /// It is not made: the page is to be written first, before this high page.
    WriteFirst { page: u32, high: u32 },
}

impl Cache {
    /// Edits a page that is in use and held in EX, by an edit that fits it. Those of the high pages that are dirty are to
    /// be written before it from now on. Where it is to be written before one of them, nothing is edited.
    ///
    /// # Errors
    ///
    /// Want of memory: the cache is then as it was.
    pub fn edit(&mut self, page: u32, edit: Edit, highs: &[u32]) -> Result<Edited, AllocError>
        requires exclusive { level_in self.old.held page ≡ Ex }
        requires pinned { is_pinned_in self.old.held page ≡ true }
        requires fits { is_some (page_after self.old page edit) ≡ true }
        ensures edited { IfOk result (Edits self.old self.new page edit highs.now) }
        ensures err { OnErr result (self.new ≡ self.old) }
    {
        let content = self.edited(page, &edit)?;
        if let Some(high) = self.relate_all(page, highs) {
            return Ok(Edited::WriteFirst { page, high });
        }
        self.put(page, content);
        Ok(Edited::Done)
    }

    /// The page after the edit.
    fn edited(&self, page: u32, edit: &Edit) -> Result<Page, AllocError>
        requires { is_some (page_after self.now page edit.now) ≡ true }
        ensures content { IfOk result (λ content. page_after self.now page edit.now ≡ Some content) }
        ensures limits { IfOk result (IsWithinLimits self.now.shape) }
    {
        let mut content = self.content(page)?;
        match apply(self.alloc, &self.shape, edit, &mut content) {
            Ok(()) => Ok(content),
            Err(_) => Err(AllocError),
        }
    }

    /// The page as it may be used; a blank one, which each edit turns into the same page, where nothing may be used of it.
    pub(crate) fn content(&self, page: u32) -> Result<Page, AllocError>
        ensures content { IfOk result (λ content. (edit : AnEdit) → page_after self.now page edit ≡ applied self.now.shape edit content) }
        ensures limits { IfOk result (IsWithinLimits self.now.shape) }
    {
        match self.page(page) {
            Some(copy) => copied(self.alloc, copy),
            None => Ok(Page::Blank),
        }
    }

    /// Relates the high pages to the page that is to be edited, in their order, up to the first that it is to be written
    /// before, which is answered.
    fn relate_all(&mut self, page: u32, highs: &[u32]) -> Option<u32>
        requires exclusive { level_in self.old.held page ≡ Ex }
        ensures { (pairs : List AnEdge) × Relates self.old.held page self.old.pairs highs.now pairs result × (self.new ≡ record self.old { pairs = pairs }) }
    {
        for high in highs {
            if self.needs_pair(page, *high) && self.relate(page, *high) {
                return Some(*high);
            }
        }
        None
    }

    /// Whether the draft of the high page is to be written before the page.
    fn needs_pair(&self, page: u32, high: u32) -> bool
        ensures { result ≡ needs_pair self.now.held page high }
    {
        self.is_dirty(high) && high != page
    }

    /// Relates the high page to the page that is to be edited: whether the page is to be written before it.
    fn relate(&mut self, page: u32, high: u32) -> bool
        requires exclusive { level_in self.old.held page ≡ Ex }
        requires needed { needs_pair self.old.held page high ≡ true }
        ensures pairs { RelatesTo self.old.pairs high page self.new.pairs result }
        ensures rest { self.new ≡ record self.old { pairs = self.new.pairs } }
    {
        pages_are_few();
        self.holds();
        is_write_first(self.graph.relate(high, page))
    }

    /// The page has this content, which is not written yet.
    fn put(&mut self, page: u32, content: Page)
        requires exclusive { level_in self.old.held page ≡ Ex }
        requires limits { IsWithinLimits self.old.shape content }
        ensures { self.new ≡ with_edit self.old page (Some content) }
    {
        self.holds();
        self.remember(page, &content);
        self.buffers.set_copy(page, Some(content));
        self.buffers.set_dirty(page, true);
    }
}

/// Whether the answer is that another page is to be written first.
fn is_write_first(related: Related) -> bool
    ensures { result ≡ is_write_first related }
{
    matches!(related, Related::WriteFirst { page: _ })
}
