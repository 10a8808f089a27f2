//! What an owner is answered.

use fbc_levels::{Callback, Cycle, Level};

/// The answer to one ask.
#[derive(Clone, Copy, Debug, PartialEq, Eq)]
pub enum Answer {
    /// It is done.
    Noted,
    Granted,
    /// It waits.
    Queued,
    /// The holder's level is in the way, and the ask does not wait.
    Busy { holder: u32, level: Level },
    /// All of the lock table's requests are used.
    Room { used: u32 },
    /// To wait would close this circle; it does not wait.
    Deadlock { cycle: Cycle },
    /// What a dead owner left was taken away; the ask is to be made again.
    Reaped { owner: u32 },
    /// It waits, for the holder.
    NotYet { holder: u32 },
    /// The device had that many bytes of the page.
    PageIs { length: u32 },
    ReadFault,
    Written,
    WriteFault,
    /// Somebody waits for a page.
    Callback(Callback),
    NoCallback,
    Least { word: Option<u32> },
}
