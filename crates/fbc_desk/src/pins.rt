//! Pages in use.

ghost use Rattle.std.specs.Prelude.{◌≡◌, ◌≤◌, ◌==◌, not, vec_capacity, vec_len};
ghost use Rattle.std.specs.List.{filter};
ghost use Rattle.fbc_notes.specs.declared.notes.Note.{Note as ANote};
ghost use Rattle.fbc_notes.specs.Notes.{support_of};
ghost use Rattle.fbc_desk.specs.declared.own.Deed.{Deed as ADeed};
ghost use Rattle.fbc_desk.specs.Grounds.{support_of_deed};
ghost use Rattle.fbc_desk.specs.Calls.{GoesOn, UnpinsAll, UnpinsIfPinned, after_look, after_mark, after_pin, is_supported_by, without_support};

use crate::desk::Desk;
use crate::local::last_of;
use crate::own::Deed;
use fbc_levels::Callback;
use fbc_notes::Note;

impl Desk {
    /// A page that is held is in use, and is the last one used.
    #[tactic(auto, using(crate::proofs::Goes::pin_goes))]
    pub fn pin(&mut self, page: u32)
        ensures after { self.new ≡ after_pin self.old page }
        ensures goes { GoesOn self.old self.new }
    {
        self.pin_held(page);
    }

    /// A page that is held is in use.
    fn pin_held(&mut self, page: u32)
        ensures { self.new ≡ after_pin self.old page }
    {
        if !self.cache.is_granted(page) {
            return;
        }
        if !self.cache.pinned(page) {
            self.add_pin(page);
        }
        self.cache.pin(page);
    }

    /// A page that is held is the last one used, without being in use.
    #[tactic(auto, using(crate::proofs::Goes::look_goes))]
    pub fn look(&mut self, page: u32)
        ensures after { self.new ≡ after_look self.old page }
        ensures goes { GoesOn self.old self.new }
    {
        self.touch(page);
    }

    /// A page is the last one used.
    fn touch(&mut self, page: u32)
        ensures { self.new ≡ after_look self.old page }
    {
        self.cache.touch(page);
    }

    /// The page is in use no more. What was found and done under its pin is forgotten.
    #[tactic(auto, using(crate::proofs::Goes::unpin_goes))]
    pub fn unpin(&mut self, page: u32)
        ensures unpins { UnpinsIfPinned self.old page self.new }
        ensures goes { GoesOn self.old self.new }
    {
        self.unpin_held(page);
    }

    /// A page that is in use is so no more.
    fn unpin_held(&mut self, page: u32)
        ensures { UnpinsIfPinned self.old page self.new }
    {
        if self.cache.pinned(page) {
            let last = last_of(page, &self.unsent);
            self.add_unpin(page, last);
            self.forget(page);
            self.cache.unpin(page);
        }
    }

    /// What was found and done under a pin of the page is forgotten.
    fn forget(&mut self, page: u32)
        ensures { self.new ≡ without_support page self.old }
    {
        forget_notes(&mut self.notes, page);
        forget_deeds(&mut self.deeds, page);
    }

    /// No page is in use any more: they are unpinned in rising order.
    pub fn unpin_all(&mut self)
        ensures unpins { UnpinsAll self.old self.new }
        ensures goes { GoesOn self.old self.new }
    {
        while let Some(page) = self.cache.next_pinned(None) {
            self.unpin(page);
        }
    }

    /// Somebody asks for the page while it is in use.
    #[tactic(auto, using(crate::proofs::Goes::mark_goes))]
    pub fn mark_blocking(&mut self, callback: Callback)
        ensures after { self.new ≡ after_mark self.old callback.page }
        ensures goes { GoesOn self.old self.new }
    {
        self.mark(callback);
    }

    /// The page is marked.
    fn mark(&mut self, callback: Callback)
        ensures { self.new ≡ after_mark self.old callback.page }
    {
        self.cache.mark_blocking(callback);
    }
}

/// Whether this is the page on which something rests.
fn is_supported_by(page: u32, support: Option<u32>) -> bool
    ensures { result ≡ is_supported_by page support }
{
    match support {
        Some(supporting) => supporting == page,
        None => false,
    }
}

/// What was found under a pin of the page is forgotten.
fn forget_notes(notes: &mut Vec<Note>, page: u32)
    ensures items { notes.new.items ≡ filter (λ (n : ANote). not (is_supported_by page (support_of n))) notes.old.items }
    ensures len { vec_len notes.new ≤ vec_len notes.old }
    ensures capacity { vec_capacity notes.new ≡ vec_capacity notes.old }
{
    notes.retain(|note| !is_supported_by(page, note.support()));
}

/// What was done under a pin of the page is forgotten.
pub(crate) fn forget_deeds(deeds: &mut Vec<Deed>, page: u32)
    ensures items { deeds.new.items ≡ filter (λ (d : ADeed). not (support_of_deed d == page)) deeds.old.items }
    ensures len { vec_len deeds.new ≤ vec_len deeds.old }
    ensures capacity { vec_capacity deeds.new ≡ vec_capacity deeds.old }
{
    deeds.retain(|deed| deed.support() != page);
}
