//! What happens in a history.

ghost use Rattle.std.specs.Prelude.{◌≡◌};

use crate::asks::{Ask, Cause};
use fbc_kinds::{Edit, Reply};
use fbc_levels::{Level, Resource};
use std::alloc::AllocError;

/// What an owner does in its own cache, between two steps.
#[derive(Clone, Copy, Debug, PartialEq, Eq)]
pub enum LocalEvent {
    /// It edits the page in its draft.
    Edit { page: u32, edit: Edit },
    /// The page `high` is to be written before `low`.
    Before { high: u32, low: u32 },
    Pin { page: u32 },
    Unpin { page: u32 },
}

/// What one event is, besides its actor. Where it was asked for, it has the fields of the ask.
#[derive(Clone, Debug, Drop)]
pub enum Act {
    /// The file is opened, with room for that many lock requests.
    Opened {
        locks: u32,
    },
    Enter {
        buffers: u32,
        name: u8,
    },
    Leave,
    /// The owner dies: it is killed, or without memory.
    Die,
    Ask {
        resource: Resource,
        level: Level,
        wait: bool,
        word: u32,
    },
    /// What the owner asked is granted.
    Grant {
        resource: Resource,
        level: Level,
    },
    Look,
    Withdraw,
    Lower {
        resource: Resource,
        level: Level,
    },
    /// The page is read; `fault` where the read failed.
    Read {
        page: u32,
        fault: bool,
    },
    /// The owner's draft is written; `failed` where the write failed, of which the owner dies.
    Write {
        page: u32,
        cause: Cause,
        failed: bool,
    },
    /// What that dead owner left is taken away, for this ask.
    Reap {
        owner: u32,
        by: Ask,
    },
    Poll {
        above: Option<u32>,
    },
    Least,
    /// The owner's statement is answered.
    Note {
        reply: Reply,
    },
    Local(LocalEvent),
}

/// One event of a history. The actor of `Opened` is 0. A clone is the same event, or an error.
#[derive(Debug, Drop)]
pub struct Event {
    pub actor: u32,
    pub act: Act,
}

impl Clone for Event {
    ghost is_clone = { λ event copy. copy ≡ event };

    fn clone(&self) -> Result<Event, AllocError> {
        let act = self.act.clone()?;
        Ok(Event {
            actor: self.actor,
            act,
        })
    }
}
