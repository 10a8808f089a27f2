//! The kinds of notes.

ghost use Rattle.std.specs.Prelude.{◌≡◌};
ghost use Rattle.fbc_notes.specs.Notes.{is_lasting, support_of};

use fbc_kinds::{Cell, Value};

/// How a transaction is over.
#[derive(Clone, Copy, Debug, PartialEq, Eq)]
pub enum Outcome {
    Committed,
    /// It was rolled back.
    Dead,
}

/// Something that was found on pages. Numbers of pages, rows, cells and transactions are those of the
/// file; a sequence counts the pages of one kind, from 0.
#[derive(Clone, Copy, Debug, PartialEq, Eq)]
pub enum Note {
    /// The header names the page as the transaction inventory page of the sequence.
    Tip {
        sequence: u32,
        page: u32,
    },
    /// The header names the page as the relation's pointer page of the sequence.
    Pointer {
        relation: u8,
        sequence: u32,
        page: u32,
    },
    /// The header counts the page inventory of the sequence.
    Counted {
        sequence: u32,
    },
    /// The transaction is over.
    Over {
        number: u32,
        outcome: Outcome,
    },
    /// The pointer page, which the header names, names the page as the relation's data page of the
    /// sequence.
    Named {
        relation: u8,
        sequence: u32,
        pointer: u32,
        page: u32,
    },
    /// The page is the relation's data page of the sequence, or the rows of the sequence show the open
    /// transaction nothing, and no version on the page leads to one that does.
    Ground {
        relation: u8,
        sequence: u32,
        page: u32,
    },
    /// The version stands in the cell of the page, and from there down the open transaction sees what it
    /// sees of the row.
    Stands {
        relation: u8,
        row: u32,
        page: u32,
        cell: u16,
        version: Cell,
    },
    /// The open transaction sees this value of the row, or nothing.
    Sees {
        relation: u8,
        row: u32,
        value: Option<Value>,
    },
}

impl Note {
    /// The page whose pin the note rests on, if it rests on one.
    pub fn support(&self) -> Option<u32>
        ensures { result ≡ support_of self.now }
    {
        match *self {
            Note::Named { page, .. } | Note::Stands { page, .. } => Some(page),
            _ => None,
        }
    }

    /// Whether the note outlasts its owner's own edits.
    pub fn outlasts_own_edits(&self) -> bool
        ensures { result ≡ is_lasting self.now }
    {
        match *self {
            Note::Tip { .. } | Note::Pointer { .. } | Note::Counted { .. } | Note::Over { .. } =>
                true,
            _ => false,
        }
    }
}
