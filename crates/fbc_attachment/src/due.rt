//! The step that is due, as an attachment keeps it.

ghost use Rattle.std.specs.Prelude.{◌≡◌};
ghost use Rattle.fbc_attachment.specs.Attachment.{ask_of, due_of};

use fbc_kinds::Reply;
use fbc_levels::{Level, Resource};
use fbc_world::{Ask, Cause};

/// The step that is due: an ask, with no reply in it.
#[derive(Clone, Copy, Debug, PartialEq, Eq)]
pub enum Due {
    Enter {
        buffers: u32,
        name: u8,
    },
    Lock {
        resource: Resource,
        level: Level,
        wait: bool,
        word: u32,
    },
    Look,
    Lower {
        resource: Resource,
        level: Level,
    },
    Read {
        page: u32,
    },
    Write {
        page: u32,
        cause: Cause,
    },
    Poll {
        above: Option<u32>,
    },
    /// The statement's answer.
    Note,
}

impl Due {
    /// The step of this ask; none where it is none that the part of a statement asks for.
    pub(crate) fn of_ask(ask: &Ask) -> Option<Due>
        ensures { result ≡ due_of ask.now }
    {
        match *ask {
            Ask::Lock {
                resource,
                level,
                wait,
                word,
            } => Some(Due::Lock {
                resource,
                level,
                wait,
                word,
            }),
            Ask::Look => Some(Due::Look),
            Ask::Lower { resource, level } => Some(Due::Lower { resource, level }),
            Ask::Read { page } => Some(Due::Read { page }),
            Ask::Write { page, cause } => Some(Due::Write { page, cause }),
            _ => None,
        }
    }

    /// Its ask. What a note answers stands elsewhere; here it is `Ok`.
    pub(crate) fn ask(&self) -> Ask
        ensures { result ≡ ask_of self.now }
    {
        match *self {
            Due::Enter { buffers, name } => Ask::Enter { buffers, name },
            Due::Lock {
                resource,
                level,
                wait,
                word,
            } => Ask::Lock {
                resource,
                level,
                wait,
                word,
            },
            Due::Look => Ask::Look,
            Due::Lower { resource, level } => Ask::Lower { resource, level },
            Due::Read { page } => Ask::Read { page },
            Due::Write { page, cause } => Ask::Write { page, cause },
            Due::Poll { above } => Ask::Poll { above },
            Due::Note => Ask::Note { reply: Reply::Ok },
        }
    }
}
