//! Why a lock that is no page is not got.

ghost use Rattle.std.specs.Prelude.{◌≡◌};
ghost use Rattle.fbc_reserve.specs.Waits.{reply_to};

use fbc_kinds::{Circle, Reply};

/// Why a lock is not got. A level stands as its number, from 0 (none) to 6 (EX).
#[derive(Clone, Copy, Debug, PartialEq, Eq)]
pub enum LockRefusal {
    /// The holder's level is in the way, and the ask does not wait.
    Busy { holder: u32, level: u8 },
    /// All of the lock table's requests are used.
    Room { used: u32 },
    /// To wait would close this circle.
    Deadlock { cycle: Circle },
}

impl LockRefusal {
    /// What the statement is answered.
    pub fn reply(&self) -> Reply
        ensures { result ≡ reply_to self.now }
    {
        match *self {
            LockRefusal::Busy { holder, level } => Reply::Busy { holder, level },
            LockRefusal::Room { used } => Reply::Room { used },
            LockRefusal::Deadlock { cycle } => Reply::Deadlock { cycle },
        }
    }
}
