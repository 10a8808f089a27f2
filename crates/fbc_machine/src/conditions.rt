//! When a command may come.

ghost use Rattle.std.specs.Prelude.{◌≡◌, ◌&&◌, ◌||◌, ◌==◌, not, nat_lt, is_some};
ghost use Rattle.fbc_kinds.specs.Machine.{may_come, may_change, is_held, is_open, is_rolled_back, is_held_by_open, is_open_of_other, is_greater_number, is_free_row, is_settled_row, newest, seen_by, standing_versions};
ghost use Rattle.fbc_machine.specs.Shown.{shown};

use crate::machine::Machine;
use fbc_kinds::{Command, Standing, Transaction};

/// Whether the command may come.
pub fn may_come(machine: &Machine, command: &Command) -> bool
    ensures { result ≡ may_come (shown machine.now) command.now }
{
    match *command {
        Command::Begin { number, .. } => machine.is_greater_number(number),
        Command::Insert { relation, row, .. } => machine.is_free_row(relation, row),
        Command::Update {
            who,
            relation,
            row,
            ..
        }
        | Command::Delete { who, relation, row } => machine.may_change(who, relation, row),
        _ => true,
    }
}

impl Machine {
    /// Whether the number is greater than those of all transactions that are open or committed.
    fn is_greater_number(&self, number: u32) -> bool
        ensures { result ≡ is_greater_number (shown self.now).transactions number }
    {
        self.transactions.iter().all(|t| is_passed(t, number))
    }

    /// Whether each open snapshot holds the number.
    fn is_held_by_open(&self, number: u32) -> bool
        ensures { result ≡ is_held_by_open (shown self.now).transactions number }
    {
        self.transactions.iter().all(|t| is_no_bar(t, number))
    }

    /// Whether the number is another owner's open one.
    fn is_open_of_other(&self, who: u32, number: u32) -> bool
        ensures { result ≡ is_open_of_other (shown self.now).transactions who number }
    {
        self.transactions.iter().any(|t| is_other(t, who, number))
    }

    /// Whether a row may be put.
    fn is_free_row(&self, relation: u8, row: u32) -> bool
        ensures { result ≡ is_free_row (shown self.now).transactions (newest (standing_versions (shown self.now) relation row)) }
    {
        match self.newest(relation, row) {
            Some(newest) => newest.is_deletion && self.is_held_by_open(newest.number),
            None => true,
        }
    }

    /// Whether the row's newest version that is not rolled back is not another owner's open one.
    fn is_settled_row(&self, who: u32, relation: u8, row: u32) -> bool
        ensures { result ≡ is_settled_row (shown self.now).transactions who (newest (standing_versions (shown self.now) relation row)) }
    {
        match self.newest(relation, row) {
            Some(newest) => !self.is_open_of_other(who, newest.number),
            None => true,
        }
    }

    /// Whether the owner sees a value of the row.
    fn is_seen_by(&self, who: u32, relation: u8, row: u32) -> bool
        ensures { result ≡ is_some (seen_by (shown self.now) who relation row) }
    {
        match self.open_place(who) {
            Some(place) => self
                .seen(relation, row, self.transaction(place).snapshot.items())
                .is_some(),
            None => false,
        }
    }

    /// Whether the owner may change the row.
    fn may_change(&self, who: u32, relation: u8, row: u32) -> bool
        ensures { result ≡ may_change (shown self.now) who relation row }
    {
        !self.is_seen_by(who, relation, row) || self.is_settled_row(who, relation, row)
    }
}

/// Whether the number does not bar the transaction's: that is rolled back, or less.
fn is_passed(transaction: &Transaction, number: u32) -> bool
    ensures { result ≡ (is_rolled_back transaction.now.standing || nat_lt transaction.now.number number) }
{
    transaction.standing == Standing::RolledBack || transaction.number < number
}

/// Whether the transaction is not open, or its snapshot holds the number.
fn is_no_bar(transaction: &Transaction, number: u32) -> bool
    ensures { result ≡ (not (is_open transaction.now.standing) || is_held transaction.now.snapshot number) }
{
    transaction.standing != Standing::Open || transaction.snapshot.items().contains(&number)
}

/// Whether this is another owner's open transaction of the number.
fn is_other(transaction: &Transaction, who: u32, number: u32) -> bool
    ensures { result ≡ (is_open transaction.now.standing && (transaction.now.number == number) && not (transaction.now.owner == who)) }
{
    transaction.standing == Standing::Open
        && transaction.number == number
        && transaction.owner != who
}
