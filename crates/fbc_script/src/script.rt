//! What a script says.

use fbc_kinds::{Listed, Name, Padded};
use fbc_levels::Level;
use fbc_outside::StepName;

/// The text of a value in a script: 1 to 255 bytes.
pub type Text = Padded<255>;

/// What an attachment is asked to do. A row is the number of a record within its relation.
#[derive(Clone, Copy, Debug, PartialEq, Eq)]
pub enum Statement {
    Attach,
    Begin {
        wait: bool,
    },
    Insert {
        relation: Name,
        text: Text,
    },
    Update {
        relation: Name,
        row: u32,
        text: Text,
    },
    Delete {
        relation: Name,
        row: u32,
    },
    Read {
        relation: Name,
        row: u32,
    },
    Scan {
        relation: Name,
    },
    Reserve {
        relation: Name,
        level: Level,
    },
    Sweep,
    Commit,
    Rollback,
    Detach,
}

/// A death that waits: just before the `count`-th next step of this name. The count is 1 to 65,535.
#[derive(Clone, Copy, Debug, PartialEq, Eq)]
pub struct Trap {
    pub name: StepName,
    pub count: u32,
}

/// What a line asks for. `at` is an attachment's number, 1 to 8.
#[derive(Clone, Copy, Debug, PartialEq, Eq)]
pub enum Order {
    /// Gives the statement and runs.
    Plain { at: u8, statement: Statement },
    /// Gives the statement.
    Post { at: u8, statement: Statement },
    /// Takes so many steps of one attachment, 1 to 65,535.
    Step { at: u8, count: u32 },
    /// Runs.
    Run,
    /// Lets the attachment die.
    Kill { at: u8 },
    /// Lets the attachment die before a later step.
    Arm { at: u8, trap: Trap },
    /// Lets all die and opens the file again.
    Reopen,
}

/// A line that is not passed over, with its number among all lines, from 1 on.
#[derive(Clone, Copy, Debug, PartialEq, Eq)]
pub struct Line {
    pub number: u32,
    pub order: Order,
}

/// A script: the lines that are not passed over, and the number of all lines.
#[derive(Debug, Drop)]
pub struct Script {
    pub lines: Listed<Line>,
    pub length: u32,
}
