//! The steps of the desk: what is due before a page may be used, and what an answer changes.

ghost use Rattle.std.specs.Prelude.{◌≡◌, ◌↔◌, ◌<◌, IfOk, OnOk, OnErr, length};
ghost use Rattle.fbc_cache.specs.declared.needs.Want.TheVariants as wants;
ghost use Rattle.fbc_cache.specs.Takes.{Judges, broken_by, page_read};
ghost use Rattle.fbc_cache.specs.Wants.{IsDueWant, IsHere, MayWant, Wants};
ghost use Rattle.fbc_desk.specs.Taking.{DeskTakes, deeds_left};
ghost use Rattle.fbc_desk.specs.Desk.{sent};

use crate::desk::Desk;
use crate::pins::forget_deeds;
use fbc_cache::{CacheFault, Need, Want};
use fbc_world::{Answer, Ask};
use std::alloc::AllocError;

impl Desk {
    /// Whether the page may be used, or the step that is due first.
    ///
    /// # Errors
    ///
    /// None so far: it takes no memory.
    pub fn want(&mut self, need: Need) -> Result<Want, AllocError>
        requires may { MayWant self.old.cache need }
        requires limit { need.page < self.old.cache.shape.limit }
        ensures same { self.new ≡ self.old }
        ensures want { IfOk result (Wants self.old.cache need) }
        ensures here { IfOk result (λ want. (want ≡ wants.Here) ↔ IsHere self.old.cache need) }
        ensures due { IfOk result (IsDueWant self.old.cache) }
    {
        self.cache.want(need)
    }

    /// Takes the answer to a step, which carried what was done before it. What was read stands in the image, of the size of a
    /// page.
    ///
    /// # Errors
    ///
    /// `Damaged` exactly where bytes were read that spell no page, with the first rule that they break; want of memory. The
    /// step was taken all the same, so that nothing is unsent; the rest is then as it was.
    pub fn take(&mut self, ask: &Ask, answer: &Answer, image: &[u8]) -> Result<(), CacheFault>
        requires image { length image.now ≡ self.old.cache.shape.size }
        ensures taken { OnOk result (DeskTakes self.old self.new ask.now answer.now image.now) }
        ensures exact { Judges result (page_read ask.now) (broken_by self.old.cache.shape ask.now answer.now image.now) }
        ensures err { OnErr result (self.new ≡ sent self.old) }
    {
        self.unsent.clear();
        self.is_spilled = false;
        self.cache.take(ask, answer, image)?;
        self.learn();
        self.forget_written(ask);
        Ok(())
    }

    /// Forgets what was done in a page that is written.
    fn forget_written(&mut self, ask: &Ask)
        ensures { self.new ≡ record self.old { deeds = deeds_left ask.now self.old.deeds } }
    {
        if let Ask::Write { page, cause: _ } = *ask {
            forget_deeds(&mut self.deeds, page);
        }
    }
}
