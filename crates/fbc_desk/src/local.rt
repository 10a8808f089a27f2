//! What is done between two steps, each thing an event that the next step carries.

ghost use Rattle.std.specs.Prelude.{◌≡◌, ◌<◌, ◌++◌, ◌∷◌, [], IfSome, length};
ghost use Rattle.fbc_world.specs.declared.events.LocalEvent.TheVariants as events;
ghost use Rattle.fbc_desk.specs.Calls.{IsLastOf, is_event_of, is_pin, may_leave, with_event, with_leaving, with_unpin};

use crate::desk::{Desk, MOST_EVENTS};
use crate::own::Own;
use fbc_kinds::Edit;
use fbc_world::LocalEvent;

impl Desk {
    /// A pin is one event more, where there is place for it.
    pub(crate) fn add_pin(&mut self, page: u32)
        ensures { self.new ≡ with_event (events.Pin page) self.old }
    {
        if self.unsent.len() == MOST_EVENTS {
            self.is_spilled = true;
        } else {
            self.push(LocalEvent::Pin { page });
        }
    }

    /// An unpin is one event more, where there is place for it and the page need not stay in use.
    fn push_unpin(&mut self, page: u32)
        ensures { self.new ≡ with_leaving page self.old }
    {
        if self.unsent.len() == MOST_EVENTS || !may_leave(page, &self.own) {
            self.is_spilled = true;
        } else {
            self.push(LocalEvent::Unpin { page });
        }
    }

    /// One event more.
    pub(crate) fn push(&mut self, event: LocalEvent)
        requires place { length self.old.unsent < 64 }
        ensures { self.new ≡ record self.old { unsent = self.old.unsent ++ event ∷ [] } }
    {
        // The borrow checker is told of this type, of which an event may be made.
        let _told: Option<&Edit> = None;
        self.unsent.push(event).unwrap();
    }

    /// An unpin is one event more, but for a pin that was not sent and behind which nothing was done with the page: it is
    /// taken back.
    pub(crate) fn add_unpin(&mut self, page: u32, last: Option<usize>)
        requires { IfSome last (λ place. place < length self.old.unsent) }
        ensures { self.new ≡ with_unpin page last self.old }
    {
        match last {
            Some(place) if is_pin(&self.unsent[place]) => {
                self.unsent.remove(place);
            }
            _ => self.push_unpin(page),
        }
    }
}

/// The place of the last event of the page.
pub(crate) fn last_of(page: u32, events: &[LocalEvent]) -> Option<usize>
    ensures last { IsLastOf page events.now result }
    ensures within { IfSome result (λ place. place < length events.now) }
{
    let mut k = events.len();
    while k > 0 {
        k -= 1;
        if is_event_of(page, &events[k]) {
            return Some(k);
        }
    }
    None
}

/// Whether the page need not stay in use: the header does, until it gives out the number of the open transaction.
fn may_leave(page: u32, own: &Option<Own>) -> bool
    ensures { result ≡ may_leave page own.now }
{
    match own {
        Some(own) => page != 0 || own.is_raised,
        None => true,
    }
}

/// Whether an event is a pin, an unpin or an edit of the page.
fn is_event_of(page: u32, event: &LocalEvent) -> bool
    ensures { result ≡ is_event_of page event.now }
{
    match event {
        LocalEvent::Edit {
            page: edited,
            edit: _,
        } => *edited == page,
        LocalEvent::Before { high: _, low: _ } => false,
        LocalEvent::Pin { page: pinned } => *pinned == page,
        LocalEvent::Unpin { page: unpinned } => *unpinned == page,
    }
}

/// Whether an event is a pin.
fn is_pin(event: &LocalEvent) -> bool
    ensures { result ≡ is_pin event.now }
{
    matches!(event, LocalEvent::Pin { page: _ })
}
