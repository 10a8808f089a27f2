//! What an ask and a look answer.

use fbc_levels::Level;

/// What an ask answers. Only the first two change the table.
#[derive(Clone, Copy, Debug, PartialEq, Eq)]
pub enum Asked {
    /// The level is granted.
    Granted,
    /// The request waits.
    Queued,
    /// The ask does not wait, and the level conflicts with the one that this owner is granted.
    Busy { holder: u32, level: Level },
    /// There is no place for a new request: so many are used, and no dead owner has one.
    Room { used: u32 },
    /// This owner, who is dead, has to be purged first.
    Dead { owner: u32 },
}

/// What a look answers to an owner that was queued.
#[derive(Clone, Copy, Debug, PartialEq, Eq)]
pub enum Looked {
    /// Nobody is in the way any more.
    Granted,
    /// This living owner is in the way.
    NotYet { holder: u32 },
    /// This owner, who is dead, has to be purged first.
    Dead { owner: u32 },
}
