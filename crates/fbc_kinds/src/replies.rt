//! What a statement is answered.

ghost use Rattle.std.specs.Prelude.{◌≡◌, ◌≤◌, length};

use crate::padded::Value;
use crate::rows::Rows;
use crate::rules::Rule;
use std::marker::Model;

/// A circle of at most 8 waiting owners, seen by contracts as the list of their numbers.
#[derive(Clone, Copy, Debug, PartialEq, Eq)]
pub struct Circle {
    length: u8,
    owners: [u32; 8],
}

impl Model for Circle {
    ghost use Rattle.std.specs.Prelude.{List, ℕ, length as length_of_list};

    ghost Value = { List ℕ };

    ghost use Rattle.fbc_kinds.specs.Padding.{text_of, IsPadded, padded, length-text_of, padded-text_of};

    ghost view = { λ a. text_of a.length a.owners };

    ghost invariant = { λ a. IsPadded 8 a.length a.owners };

    ghost inverse = { λ owners. record { length = length_of_list owners; owners = padded 8 owners } };

    ghost inverse_ok = { λ a is i. record { length = length-text_of 8 a.length a.owners is i; owners = padded-text_of 8 a.length a.owners is i } };
}

impl Circle {
    /// The circle of these owners.
    pub fn new(owners: &[u32]) -> Self
        requires { length owners.now ≤ 8 }
        ensures { result ≡ owners.now }
    {
        let mut places = [0; 8];
        places[..owners.len()].copy_from_slice(owners);
        Circle {
            length: owners.len() as u8,
            owners: places,
        }
    }

    /// The owners, in the order in which each waits for the next.
    pub fn owners(&self) -> &[u32]
        ensures { result.now ≡ self.now }
    {
        &self.owners[..self.length as usize]
    }
}

/// The answer to a statement. An owner stands as its number, a lock level as its number from 0
/// (none) to 6 (EX).
#[derive(Clone, Debug, Drop)]
pub enum Reply {
    /// It is done.
    Ok,
    /// The row has this value.
    Value { value: Value },
    /// There is nothing to be seen at this row.
    None,
    /// These rows are seen.
    Rows { rows: Rows },
    /// There is nothing at this row to be changed.
    NoRow,
    /// Transaction `n` changed this row, and this transaction does not see it.
    Conflict { n: u32 },
    /// The holder's level on what is asked is in the way, and the transaction does not wait.
    Busy { holder: u32, level: u8 },
    /// To wait would close this circle.
    Deadlock { cycle: Circle },
    /// All of the lock table's requests are used.
    Room { used: u32 },
    /// The next transaction number is the limit.
    TransactionLimit { next: u32 },
    /// All pages that there may be are used.
    SpaceLimit { pages: u32 },
    /// The text is longer than the relation's values.
    TooLong { length: u32 },
    /// The owner has no open transaction.
    NoTransaction,
    /// The owner has an open transaction.
    AlreadyOpen,
    /// A page could not be read.
    ReadFault,
    /// A page could not be written, now or earlier.
    Shut,
    /// The page breaks the rule.
    Damaged { page: u32, rule: Rule },
    /// There was no memory.
    OutOfMemory,
    /// It is not answered yet, and waits for the holder.
    Waits { holder: u32 },
    /// The new row has this number.
    Row { row: u32 },
    /// The new transaction has this number.
    Number { number: u32 },
    /// There is no such attachment.
    NotAttached,
    /// There is such an attachment already.
    Attached,
    /// The statement before it is not answered yet.
    InProgress,
    /// There is no relation of this name.
    NoRelation,
}
