//! What the one-thread machine is asked.

use crate::padded::Value;

/// A command of the one-thread machine. `who` is the owner that gives it, `relation` the
/// relation's number and `row` the row's number in it.
#[derive(Clone, Copy, Debug, PartialEq, Eq)]
pub enum Command {
    /// The owner begins the transaction of this number.
    Begin {
        who: u32,
        number: u32,
    },
    /// The owner puts a new row.
    Insert {
        who: u32,
        relation: u8,
        row: u32,
        value: Value,
    },
    /// The owner gives a row another value.
    Update {
        who: u32,
        relation: u8,
        row: u32,
        value: Value,
    },
    /// The owner deletes a row.
    Delete {
        who: u32,
        relation: u8,
        row: u32,
    },
    /// The owner asks for a row's value.
    Read {
        who: u32,
        relation: u8,
        row: u32,
    },
    /// The owner asks for all rows of a relation.
    Scan {
        who: u32,
        relation: u8,
    },
    /// The owner makes what its transaction did stand.
    Commit {
        who: u32,
    },
    /// The owner gives up what its transaction did.
    Rollback {
        who: u32,
    },
    /// The owner dies.
    Kill {
        who: u32,
    },
}
