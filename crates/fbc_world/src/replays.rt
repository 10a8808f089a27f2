//! The cell of one page, replayed event by event over a file of blank pages.

ghost use Rattle.std.specs.Prelude.{◌≡◌, false, IfOk, None, OnOk, Some, reverse};
ghost use Rattle.fbc_kinds.specs.Edits.{IsShape, IsWithinLimits};
ghost use Rattle.fbc_world.specs.History.{none_landed};
ghost use Rattle.fbc_world.specs.PageCell.{blank_file, draft, draft_step, drafted, edited, kept, kept_step, newest_in, page_for, without};
ghost use Rattle.fbc_world.specs.Replay.{IsWithin};

use crate::drafts::Draft;
use crate::events::{Act, Event, LocalEvent};
use fbc_apply::{apply, copied};
use fbc_kinds::{ApplyFault, Edit, Page, Shape};
use std::alloc::{AllocError, Global};

/// What is kept of a page, and its draft.
#[derive(Debug, Drop)]
pub(crate) struct Replay {
    pub(crate) kept: Page,
    pub(crate) draft: Option<Draft>,
}

/// The cell of that page after these events over blank pages.
pub(crate) fn replayed(
    alloc: Global,
    shape: &Shape,
    page: u32,
    events: &[Event],
) -> Result<Replay, AllocError>
    requires { IsShape shape.now }
    ensures kept { IfOk result (λ cell. Some cell.kept ≡ kept shape.now blank_file (none_landed (reverse events.now)) page) }
    ensures draft { IfOk result (λ cell. cell.draft ≡ draft shape.now blank_file (none_landed (reverse events.now)) page) }
{
    let mut cell = Replay {
        kept: Page::Blank,
        draft: None,
    };
    for event in events {
        cell.replay(alloc, shape, page, event)?;
    }
    Ok(cell)
}

impl Replay {
    /// What is kept.
    pub(crate) fn into_kept(self) -> Page
        ensures { result ≡ self.kept }
    {
        let Replay { kept, draft: _ } = self;
        kept
    }

    /// The newest content.
    pub(crate) fn into_newest(self) -> Page
        ensures { newest_in (Some self.kept) self.draft ≡ Some result }
    {
        let Replay { kept, draft } = self;
        match draft {
            Some(Draft { owner: _, content }) => content,
            None => kept,
        }
    }

    /// What the event does to the page.
    fn replay(
        &mut self,
        alloc: Global,
        shape: &Shape,
        page: u32,
        event: &Event,
    ) -> Result<(), AllocError>
        requires shape { IsShape shape.now }
        requires within { IsWithin shape.now self.old }
        ensures within { OnOk result (IsWithin shape.now self.new) }
        ensures kept { OnOk result (Some self.new.kept
            ≡ kept_step page (Some self.old.kept) self.old.draft event.now.actor event.now.act false) }
        ensures draft { OnOk result (self.new.draft
            ≡ draft_step shape.now page (Some self.old.kept) self.old.draft event.now.actor event.now.act) }
    {
        match &event.act {
            Act::Local(LocalEvent::Edit { page: number, edit }) => {
                if *number == page {
                    self.edit(alloc, shape, event.actor, edit)?;
                }
            }
            Act::Write {
                page: number,
                cause: _,
                failed,
            } => {
                if *failed {
                    self.forget(shape, event.actor);
                } else if *number == page {
                    self.land(shape, event.actor);
                }
            }
            Act::Die => self.forget(shape, event.actor),
            _ => {}
        }
        Ok(())
    }

    /// The owner edits the page, if the edit fits.
    fn edit(
        &mut self,
        alloc: Global,
        shape: &Shape,
        owner: u32,
        edit: &Edit,
    ) -> Result<(), AllocError>
        requires shape { IsShape shape.now }
        requires within { IsWithin shape.now self.old }
        ensures within { OnOk result (IsWithin shape.now self.new) }
        ensures kept { self.new.kept ≡ self.old.kept }
        ensures draft { OnOk result (self.new.draft ≡ drafted owner self.old.draft
            (edited shape.now edit.now (page_for owner (Some self.old.kept) self.old.draft))) }
    {
        let mut content = copied(alloc, self.page_for(shape, owner))?;
        match apply(alloc, shape, edit, &mut content) {
            Ok(()) => {
                self.draft = Some(Draft { owner, content });
                Ok(())
            }
            Err(ApplyFault::Unfit) => Ok(()),
            Err(ApplyFault::Memory) => Err(AllocError),
        }
    }

    /// The page as the owner has it.
    fn page_for(&self, shape: &Shape, owner: u32) -> &Page
        requires { IsWithin shape.now self.now }
        ensures page { Some result.now ≡ page_for owner (Some self.now.kept) self.now.draft }
        ensures within { IsWithinLimits shape.now result.now }
    {
        match &self.draft {
            Some(draft) => {
                if draft.owner == owner {
                    &draft.content
                } else {
                    &self.kept
                }
            }
            None => &self.kept,
        }
    }

    /// The owner's draft, if there is one, is kept.
    fn land(&mut self, shape: &Shape, owner: u32)
        requires { IsWithin shape.now self.old }
        ensures within { IsWithin shape.now self.new }
        ensures kept { Some self.new.kept ≡ page_for owner (Some self.old.kept) self.old.draft }
        ensures draft { self.new.draft ≡ without owner self.old.draft }
    {
        if let Some(draft) = self.draft.take() {
            if draft.owner == owner {
                let Draft { owner: _, content } = draft;
                self.kept = content;
            } else {
                self.draft = Some(draft);
            }
        }
    }

    /// The owner's draft, if there is one, is lost.
    fn forget(&mut self, shape: &Shape, owner: u32)
        requires { IsWithin shape.now self.old }
        ensures within { IsWithin shape.now self.new }
        ensures kept { self.new.kept ≡ self.old.kept }
        ensures draft { self.new.draft ≡ without owner self.old.draft }
    {
        if let Some(draft) = self.draft.take() {
            if draft.owner != owner {
                self.draft = Some(draft);
            }
        }
    }
}
