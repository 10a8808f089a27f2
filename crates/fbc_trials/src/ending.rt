//! Why a play ends before its last line.

use fbc_kinds::Rule;
use std::alloc::AllocError;

/// Why a play ends before its last line.
#[derive(Clone, Copy, Debug, PartialEq, Eq)]
pub enum End {
    /// The line has used as many steps as it may.
    Budget { line: u32 },
    /// A statement of the line is not built yet.
    Later { line: u32 },
    /// A step of the line may not be taken, or none comes where one is due.
    Refused { line: u32 },
    /// The file is none of this store's.
    NotOurs { rule: Rule },
    /// The file could not be opened.
    DeviceFault,
    /// The lines could not be written.
    SinkFault,
    /// There was no memory.
    OutOfMemory,
}

impl From<AllocError> for End {
    ghost use Rattle.std.specs.Prelude.{◌≡◌};
    ghost use Rattle.fbc_trials.specs.declared.ending.End.TheVariants.{OutOfMemory};

    ghost from_gives = { λ _ end. end ≡ OutOfMemory };

    fn from(_: AllocError) -> Self {
        End::OutOfMemory
    }
}
