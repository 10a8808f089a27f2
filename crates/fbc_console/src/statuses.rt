//! How a call of the console ends.

ghost use Rattle.std.specs.Prelude.{◌≡◌, IfOk, string_bytes};

use fbc_kinds::Rule;
use fbc_script::{ScriptFault, Why};
use std::alloc::{AllocError, Global};

/// How a call of the console ended (docs/STATUSES.md).
#[derive(Clone, Copy, Debug, PartialEq, Eq)]
pub enum Status {
    /// The command was carried out.
    Ok,
    /// The words are no command.
    Usage,
    /// This is the first faulty line of the script, with its cause.
    Script { line: u32, why: Why },
    /// The file is none of this store's: its beginning or its length breaks this rule.
    NotOurs { rule: Rule },
    /// The file was checked and has damage; its report says which.
    Damaged,
    /// A call of the device was answered Failed.
    DeviceFault,
    /// A call of the source was answered Failed.
    SourceFault,
    /// A call of the sink was answered Failed.
    SinkFault,
    /// There was no memory.
    OutOfMemory,
    /// A new file was asked for where bytes stand already.
    Occupied,
    /// The script is too long.
    SourceLong,
    /// The file or the script is of a kind that is not built yet.
    Later,
}

/// The last line of a call that had no memory, which takes none itself.
pub const MEMORY_LINE: &[u8; 7] = b"memory\n";

impl Status {
    ghost use Rattle.fbc_console.specs.Statuses.{status_line, exit_number};

    /// The last line that a call with this status writes; empty where it writes none.
    pub fn line(self, alloc: Global) -> Result<String, AllocError>
        ensures { IfOk result (λ line. string_bytes line ≡ status_line self) }
    {
        match self {
            Status::Ok | Status::Damaged | Status::SinkFault => format!(in alloc; ""),
            Status::Usage => format!(in alloc; "usage\n"),
            Status::Script { line, why } => {
                let fault = ScriptFault { line, why };
                format!(in alloc; "script {fault}\n")
            }
            Status::NotOurs { rule } => format!(in alloc; "notours {rule}\n"),
            Status::DeviceFault => format!(in alloc; "device\n"),
            Status::SourceFault => format!(in alloc; "source\n"),
            Status::OutOfMemory => format!(in alloc; "memory\n"),
            Status::Occupied => format!(in alloc; "occupied\n"),
            Status::SourceLong => format!(in alloc; "scriptlong\n"),
            Status::Later => format!(in alloc; "later\n"),
        }
    }

    /// The number by which the program ends.
    pub fn number(self) -> u8
        ensures { result ≡ exit_number self }
    {
        match self {
            Status::Ok => 0,
            Status::Usage => 1,
            Status::Script { line: _, why: _ } => 2,
            Status::NotOurs { rule: _ } => 3,
            Status::Damaged => 3,
            Status::DeviceFault => 4,
            Status::SourceFault => 5,
            Status::SinkFault => 6,
            Status::OutOfMemory => 7,
            Status::Occupied => 8,
            Status::SourceLong => 10,
            Status::Later => 11,
        }
    }
}

impl From<AllocError> for Status {
    ghost use Rattle.std.specs.Prelude.{◌≡◌};
    ghost use Rattle.fbc_console.specs.declared.statuses.Status.TheVariants.{OutOfMemory};

    ghost from_gives = { λ _ status. status ≡ OutOfMemory };

    fn from(_: AllocError) -> Self {
        Status::OutOfMemory
    }
}
