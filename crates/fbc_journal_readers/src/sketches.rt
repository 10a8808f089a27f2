//! The owner of a page's draft, replayed over a file of blank pages without memory: by outlines.

ghost use Rattle.std.specs.Prelude.{◌≡◌, reverse};
ghost use Rattle.fbc_kinds.specs.Edits.{IsShape};
ghost use Rattle.fbc_world.specs.History.{none_landed};
ghost use Rattle.fbc_world.specs.PageCell.{blank_file, draft_owner};
ghost use Rattle.fbc_journal_readers.specs.Outlines.{outline_after};
ghost use Rattle.fbc_journal_readers.specs.Sketches.{draft_outline_step, kept_outline_step, outline_drafted, outline_for, outline_without, sketch_step, sketched_owner};

use crate::outlines::Outline;
use fbc_kinds::Shape;
use fbc_world::{Act, Event, LocalEvent};

/// The outline of a draft.
#[derive(Clone, Copy, Debug)]
pub(crate) struct DraftOutline {
    pub(crate) owner: u32,
    pub(crate) outline: Outline,
}

/// The outlines of what is kept of a page and of its draft.
#[derive(Clone, Copy, Debug)]
pub(crate) struct Sketch {
    pub(crate) kept: Outline,
    pub(crate) draft: Option<DraftOutline>,
}

/// The owner of the page's draft after these events over blank pages.
pub(crate) fn draft_owner(shape: &Shape, page: u32, events: &[Event]) -> Option<u32>
    requires { IsShape shape.now }
    ensures { result ≡ draft_owner shape.now blank_file (none_landed (reverse events.now)) page }
{
    let mut sketch = Sketch {
        kept: Outline::Blank,
        draft: None,
    };
    for event in events {
        sketch = sketch.after(shape, page, event);
    }
    sketch.owner()
}

impl Sketch {
    /// The owner of the draft.
    fn owner(self) -> Option<u32>
        ensures { result ≡ sketched_owner self }
    {
        match self.draft {
            Some(draft) => Some(draft.owner),
            None => None,
        }
    }

    /// The sketch after the event.
    fn after(self, shape: &Shape, page: u32, event: &Event) -> Sketch
        requires { IsShape shape.now }
        ensures { result ≡ sketch_step shape.now page self event.now.actor event.now.act }
    {
        Sketch {
            kept: self.kept_after(page, event),
            draft: self.draft_after(shape, page, event),
        }
    }

    /// The outline of what is kept after the event.
    fn kept_after(self, page: u32, event: &Event) -> Outline
        ensures { result ≡ kept_outline_step page self event.now.actor event.now.act }
    {
        match &event.act {
            Act::Write {
                page: number,
                cause: _,
                failed,
            } => {
                if *number == page && !*failed {
                    self.outline_for(event.actor)
                } else {
                    self.kept
                }
            }
            _ => self.kept,
        }
    }

    /// The outline of the draft after the event.
    fn draft_after(self, shape: &Shape, page: u32, event: &Event) -> Option<DraftOutline>
        requires { IsShape shape.now }
        ensures { result ≡ draft_outline_step shape.now page self event.now.actor event.now.act }
    {
        let owner = event.actor;
        match &event.act {
            Act::Local(LocalEvent::Edit { page: number, edit }) => {
                if *number == page {
                    self.drafted(owner, self.outline_for(owner).after(shape, edit))
                } else {
                    self.draft
                }
            }
            Act::Write {
                page: number,
                cause: _,
                failed,
            } => {
                if *number == page || *failed {
                    self.without(owner)
                } else {
                    self.draft
                }
            }
            Act::Die => self.without(owner),
            _ => self.draft,
        }
    }

    /// The outline of the owner's new draft, and of the one that is there where no edit fitted.
    fn drafted(self, owner: u32, edited: Option<Outline>) -> Option<DraftOutline>
        ensures { result ≡ outline_drafted owner self.draft edited }
    {
        match edited {
            Some(outline) => Some(DraftOutline { owner, outline }),
            None => self.draft,
        }
    }

    /// The outline of the page as the owner has it.
    fn outline_for(self, owner: u32) -> Outline
        ensures { result ≡ outline_for owner self.kept self.draft }
    {
        match self.draft {
            Some(draft) if draft.owner == owner => draft.outline,
            _ => self.kept,
        }
    }

    /// The draft's outline, unless it is this owner's.
    fn without(self, owner: u32) -> Option<DraftOutline>
        ensures { result ≡ outline_without owner self.draft }
    {
        match self.draft {
            Some(draft) if draft.owner != owner => Some(draft),
            _ => None,
        }
    }
}
