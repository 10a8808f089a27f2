//! Transactions of the one-thread machine, and what each took of the others as it began.

use crate::listed::Listed;
use crate::pages::State;

/// The states of all transactions as one of them began. It holds its own number, and every number
/// that was committed.
#[derive(Debug, Drop)]
pub struct Snapshot {
    /// The number of the transaction that began.
    pub own: u32,
    /// The state of each number, from 0 on.
    pub states: Listed<State>,
}

/// How a transaction of the one-thread machine stands.
#[derive(Clone, Copy, Debug, PartialEq, Eq)]
pub enum Standing {
    Open,
    Committed,
    RolledBack,
}

/// A transaction of the one-thread machine.
#[derive(Debug, Drop)]
pub struct Transaction {
    pub number: u32,
    pub owner: u32,
    pub standing: Standing,
    /// The numbers that its snapshot holds: its own, and those that were committed as it began.
    pub snapshot: Listed<u32>,
}
