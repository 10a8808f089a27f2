//! What an owner asks of the shared region, one atomic step for each ask.

use fbc_kinds::Reply;
use fbc_levels::{Level, Resource};

/// One step of an owner.
#[derive(Clone, Debug, Drop)]
pub enum Ask {
    /// It comes, with room for that many pages, as the attachment with that number of a name.
    Enter {
        buffers: u32,
        name: u8,
    },
    /// It goes.
    Leave,
    /// It wants the level, and waits for it if need be and if it may; `word` is its data word.
    Lock {
        resource: Resource,
        level: Level,
        wait: bool,
        word: u32,
    },
    /// Whether what it waits for is granted.
    Look,
    /// It waits no more.
    Withdraw,
    /// It holds no more than that level.
    Lower {
        resource: Resource,
        level: Level,
    },
    /// It reads the page into its cache.
    Read {
        page: u32,
    },
    /// It writes its draft of the page.
    Write {
        page: u32,
        cause: Cause,
    },
    /// It asks for the next callback on a page past this one.
    Poll {
        above: Option<u32>,
    },
    /// It asks for the least data word of the transactions.
    Least,
    /// It answers its statement.
    Note {
        reply: Reply,
    },
}

/// Why a page is written.
#[derive(Clone, Copy, Debug, PartialEq, Eq)]
pub enum Cause {
    Commit,
    /// That owner waits for the page, or for one that it stands before.
    CallbackOf { asker: u32 },
    /// A pair with that page would close a circle.
    Cycle { high: u32 },
    /// The cache is full, and that page is wanted.
    Evict { wanted: u32 },
    /// A transaction is marked as rolled back.
    Mark,
    Detach,
}
