//! What the answer to an ask does to the cache.

ghost use Rattle.std.specs.Prelude.{◌≡◌, OnOk, OnErr, IfOk, IfSome, Some, true, false, length};
ghost use Rattle.std.specs.Option.{option_map_or};
ghost use Rattle.fbc_buffers.specs.Holding.{buffer_of};
ghost use Rattle.fbc_kinds.specs.Spelling.{first_broken_rule};
ghost use Rattle.fbc_kinds.specs.Edits.{IsWithinLimits};
ghost use Rattle.fbc_cache.specs.Remembered.{remembered_after};
ghost use Rattle.fbc_cache.specs.Takes.{IsShown, Judges, Takes, WasShown, after_due, after_lock, after_look, after_lowering, after_read, after_withdrawal, after_write, broken_by, page_read};
ghost use Rattle.fbc_cache.specs.Wants.{is_due, is_lock_due, is_lowering_due, is_unread};

use crate::cache::Cache;
use crate::due::is_page;
use crate::faults::CacheFault;
use fbc_kinds::{Page, PageFault};
use fbc_levels::Level;
use fbc_spelling::page_shown;
use fbc_world::{Answer, Ask};

impl Cache {
    /// Takes the answer to a step. What was read stands in the image, of the size of a page. A step that was not due, or
    /// that is of no page, leaves the cache.
    ///
    /// # Errors
    ///
    /// `Damaged` exactly where bytes were read that spell no page, with the first rule that they break; want of memory. The
    /// cache is then as it was, so a page that was to be read has no copy.
    pub fn take(&mut self, ask: &Ask, answer: &Answer, image: &[u8]) -> Result<(), CacheFault>
        requires image { length image.now ≡ self.old.shape.size }
        ensures taken { OnOk result (Takes self.old self.new ask.now answer.now image.now) }
        ensures exact { Judges result (page_read ask.now) (broken_by self.old.shape ask.now answer.now image.now) }
        ensures err { OnErr result (self.new ≡ self.old) }
    {
        let shown = self.shown(ask, answer, image)?;
        if self.is_due(ask) {
            self.take_due(ask, answer, shown);
        }
        Ok(())
    }

    /// The page that was read, if bytes were read.
    fn shown(&self, ask: &Ask, answer: &Answer, image: &[u8]) -> Result<Option<Page>, CacheFault>
        requires image { length image.now ≡ self.now.shape.size }
        ensures shown { IfOk result (WasShown self.now.shape ask.now answer.now image.now) }
        ensures limits { IfOk result (λ shown. IfSome shown (IsWithinLimits self.now.shape)) }
        ensures exact { Judges result (page_read ask.now) (broken_by self.now.shape ask.now answer.now image.now) }
    {
        match (ask, answer) {
            (Ask::Read { page }, Answer::PageIs { length: _ }) => self.read_page(*page, image),
            _ => Ok(None),
        }
    }

    /// The page that these bytes show.
    fn read_page(&self, page: u32, image: &[u8]) -> Result<Option<Page>, CacheFault>
        requires image { length image.now ≡ self.now.shape.size }
        ensures shown { IfOk result (IsShown self.now.shape page image.now) }
        ensures limits { IfOk result (λ shown. IfSome shown (IsWithinLimits self.now.shape)) }
        ensures exact { Judges result page (first_broken_rule self.now.shape page image.now) }
    {
        match page_shown(self.alloc, &self.shape, page, image) {
            Ok(content) => Ok(Some(content)),
            Err(PageFault::Damaged { rule }) => Err(CacheFault::Damaged { page, rule }),
            Err(PageFault::Memory) => Err(CacheFault::Memory),
        }
    }

    /// The answer to a step that is due.
    fn take_due(&mut self, ask: &Ask, answer: &Answer, shown: Option<Page>)
        requires due { is_due self.old ask.now ≡ true }
        requires limits { IfSome shown (IsWithinLimits self.old.shape) }
        ensures { self.new ≡ after_due self.old ask.now answer.now shown }
    {
        match ask {
            Ask::Lock {
                resource,
                level,
                wait: _,
                word: _,
            } if is_page(*resource) => self.take_lock(resource.key, *level, answer),
            Ask::Look => self.take_look(answer),
            Ask::Withdraw => self.take_withdrawal(answer),
            Ask::Lower { resource, level } if is_page(*resource) => {
                self.take_lowering(resource.key, *level);
            }
            Ask::Read { page } => self.take_read(*page, shown),
            Ask::Write { page, cause: _ } => self.take_write(*page, answer),
            _ => {}
        }
    }

    /// A lock on a page is granted, or waited for.
    fn take_lock(&mut self, page: u32, level: Level, answer: &Answer)
        requires due { is_lock_due self.old page level ≡ true }
        ensures { self.new ≡ after_lock self.old page level answer.now }
    {
        self.holds();
        match answer {
            Answer::Granted => self.buffers.add_granted(page, level),
            Answer::Queued => self.buffers.add_waiting(page, level),
            _ => {}
        }
    }

    /// What is waited for is granted, or not.
    fn take_look(&mut self, answer: &Answer)
        ensures { self.new ≡ after_look self.old answer.now }
    {
        if let Answer::Granted = answer {
            self.buffers.grant_wait();
        }
    }

    /// Nothing is waited for any more, or it was granted before.
    fn take_withdrawal(&mut self, answer: &Answer)
        ensures { self.new ≡ after_withdrawal self.old answer.now }
    {
        match answer {
            Answer::Noted => self.buffers.drop_wait(),
            Answer::Granted => self.buffers.grant_wait(),
            _ => {}
        }
    }

    /// A page is given up, or held in a lower level.
    fn take_lowering(&mut self, page: u32, level: Level)
        requires due { is_lowering_due self.old page level ≡ true }
        ensures { self.new ≡ after_lowering self.old page level }
    {
        self.holds();
        match level {
            Level::Free => self.buffers.remove(page),
            _ => {
                self.buffers.set_level(page, level);
                self.buffers.set_blocking(page, false);
            }
        }
    }

    /// A page was read, and is this one.
    fn take_read(&mut self, page: u32, shown: Option<Page>)
        requires due { option_map_or is_unread (buffer_of self.old.held page) false ≡ true }
        requires limits { IfSome shown (IsWithinLimits self.old.shape) }
        ensures { self.new ≡ after_read self.old page shown }
    {
        self.holds();
        self.remember_shown(page, &shown);
        self.buffers.set_copy(page, shown);
    }

    /// What the page shows of pointer pages, if it is there, is remembered.
    fn remember_shown(&mut self, page: u32, shown: &Option<Page>)
        requires limits { IfSome shown.now (IsWithinLimits self.old.shape) }
        ensures { self.new ≡ record self.old { pointers = remembered_after page shown.now self.old.pointers } }
    {
        if let Some(content) = shown {
            self.remember(page, content);
        }
    }

    /// A page is written.
    fn take_write(&mut self, page: u32, answer: &Answer)
        ensures { self.new ≡ after_write self.old page answer.now }
    {
        if let Answer::Written = answer {
            self.graph.clear(page);
            self.buffers.set_dirty(page, false);
        }
    }

    /// What the page shows of pointer pages, if it is the header, is remembered.
    pub(crate) fn remember(&mut self, page: u32, content: &Page)
        requires limits { IsWithinLimits self.old.shape content.now }
        ensures { self.new ≡ record self.old { pointers = remembered_after page (Some content.now) self.old.pointers } }
    {
        if page == 0 {
            if let Page::Header(header) = content {
                self.remembered.set(header.relations.items());
            }
        }
    }
}
