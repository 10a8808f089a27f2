//! The machine's state, what it shows, and how it changes.

ghost use Rattle.std.specs.Prelude.{◌≡◌, ◌&&◌, ◌<◌, ◌∷◌, find, length, slice_get, is_some, IfSome, IfOk, OnOk, OnErr};
ghost use Rattle.std.specs.Option.{option_and_then, option_copied};
ghost use Rattle.fbc_kinds.specs.Chain.{see};
ghost use Rattle.fbc_kinds.specs.Machine.{empty, begun, is_held, is_open_of, is_committed, committed_numbers, open_place, open_transaction, standing_versions, with_version, ended, after_end};

use fbc_kinds::{Listed, Standing, Transaction, Value};
use std::alloc::{AllocError, Global};

/// A version of a row.
#[derive(Clone, Copy, Debug)]
pub(crate) struct Version {
    pub(crate) relation: u8,
    pub(crate) row: u32,
    /// The place of the transaction that made it, in the order of the beginnings.
    maker: usize,
    /// The value, none where the version is a deletion.
    value: Option<Value>,
}

/// The rows and the transactions of the machine.
#[derive(Debug, Drop)]
pub struct Machine {
    /// The versions of all rows, newest first.
    pub(crate) versions: Vec<Version>,
    /// The transactions, in the order of their beginnings.
    pub(crate) transactions: Vec<Transaction>,
}

/// A row's newest version that is not rolled back.
#[derive(Clone, Copy, Debug)]
pub(crate) struct Newest {
    /// The number of the transaction that made it.
    pub(crate) number: u32,
    /// Whether it is a deletion.
    pub(crate) is_deletion: bool,
}

impl Version {
    ghost use Rattle.fbc_machine.specs.Shown.{is_at};

    /// Whether this is a version of the row.
    fn is_at(&self, relation: u8, row: u32) -> bool
        ensures { result ≡ is_at relation row self.now }
    {
        self.relation == relation && self.row == row
    }
}

/// Whether this is the open transaction of the owner.
fn is_open(transaction: &Transaction, who: u32) -> bool
    ensures { result ≡ is_open_of who transaction.now }
{
    transaction.standing == Standing::Open && transaction.owner == who
}

/// Ends this transaction if it is the open one of the owner.
fn end_if_open(transaction: &mut Transaction, who: u32, standing: Standing)
    ensures { transaction.new ≡ ended who standing transaction.old }
{
    if is_open(transaction, who) {
        transaction.standing = standing;
    }
}

/// Whether the transaction is committed.
fn has_committed(transaction: &Transaction) -> bool
    ensures { result ≡ is_committed transaction.now.standing }
{
    transaction.standing == Standing::Committed
}

impl Machine {
    ghost use Rattle.fbc_machine.specs.Shown.{shown, number_at, is_held_at, is_held_there, is_standing_there, newest_of, newest_from, with_transaction};

    /// The machine that has no rows.
    pub fn new(alloc: Global) -> Result<Self, AllocError>
        ensures { IfOk result (λ machine. shown machine ≡ empty) }
    {
        Ok(Machine {
            versions: Vec::new(alloc),
            transactions: Vec::new(alloc),
        })
    }

    /// The allocator of the machine's lists.
    pub(crate) fn allocator(&self) -> Global {
        *self.versions.allocator()
    }

    /// The place of the owner's open transaction in the order of the beginnings.
    fn position(&self, who: u32) -> Option<usize>
        ensures { result ≡ open_place (shown self.now) who }
    {
        self.transactions.iter().position(|t| is_open(t, who))
    }

    /// The place of the owner's open transaction, where there is one.
    pub(crate) fn open_place(&self, who: u32) -> Option<usize>
        ensures place { result ≡ open_place (shown self.now) who }
        ensures within { IfSome result (λ place. place < length (shown self.now).transactions) }
        ensures transaction { option_and_then (slice_get (shown self.now).transactions) result ≡ open_transaction (shown self.now) who }
        ensures open { is_some result ≡ is_some (open_transaction (shown self.now) who) }
    {
        self.position(who)
    }

    /// The transaction at this place in the order of the beginnings.
    pub(crate) fn transaction(&self, place: usize) -> &Transaction
        requires { place < length (shown self.now).transactions }
        ensures { slice_get (shown self.now).transactions place ≡ Some result.now }
    {
        &self.transactions[place]
    }

    /// The number of the transaction at this place, unless it is rolled back.
    fn number(&self, maker: usize) -> Option<u32>
        ensures { result ≡ number_at (shown self.now).transactions maker }
    {
        match self.transactions.get(maker) {
            Some(transaction) if transaction.standing != Standing::RolledBack => {
                Some(transaction.number)
            }
            _ => None,
        }
    }

    /// Whether the snapshot holds the number of the transaction at this place, which is not
    /// rolled back.
    fn is_held(&self, maker: usize, snapshot: &[u32]) -> bool
        ensures { result ≡ is_held_at (shown self.now).transactions snapshot.now maker }
    {
        match self.number(maker) {
            Some(number) => snapshot.contains(&number),
            None => false,
        }
    }

    /// Whether this is a version of the row that the snapshot holds.
    fn is_held_there(&self, version: &Version, relation: u8, row: u32, snapshot: &[u32]) -> bool
        ensures { result ≡ is_held_there self.now.transactions.items relation row snapshot.now version.now }
    {
        version.is_at(relation, row) && self.is_held(version.maker, snapshot)
    }

    /// Whether this is a version of the row that is not rolled back.
    fn is_standing_there(&self, version: &Version, relation: u8, row: u32) -> bool
        ensures { result ≡ is_standing_there self.now.transactions.items relation row version.now }
    {
        version.is_at(relation, row) && self.number(version.maker).is_some()
    }

    /// The row's newest version that the snapshot holds.
    fn first_held(&self, relation: u8, row: u32, snapshot: &[u32]) -> Option<&Version>
        ensures { option_copied result ≡ find (is_held_there self.now.transactions.items relation row snapshot.now) self.now.versions.items }
    {
        self.versions.iter().find(|version| self.is_held_there(version, relation, row, snapshot))
    }

    /// The row's newest version that is not rolled back.
    fn first_standing(&self, relation: u8, row: u32) -> Option<&Version>
        ensures { option_copied result ≡ find (is_standing_there self.now.transactions.items relation row) self.now.versions.items }
    {
        self.versions
            .iter()
            .find(|version| self.is_standing_there(version, relation, row))
    }

    /// What a snapshot of these numbers sees of the row.
    pub(crate) fn seen(&self, relation: u8, row: u32, snapshot: &[u32]) -> Option<Value>
        ensures { result ≡ see (standing_versions (shown self.now) relation row) (is_held snapshot.now) }
    {
        match self.first_held(relation, row, snapshot) {
            Some(version) => version.value,
            None => None,
        }
    }

    /// What the version says, unless its transaction is rolled back.
    fn standing(&self, version: &Version) -> Option<Newest>
        ensures { result ≡ newest_from (shown self.now).transactions version.now }
    {
        match self.number(version.maker) {
            Some(number) => Some(Newest {
                number,
                is_deletion: version.value.is_none(),
            }),
            None => None,
        }
    }

    /// The row's newest version that is not rolled back.
    pub(crate) fn newest(&self, relation: u8, row: u32) -> Option<Newest>
        ensures { result ≡ newest_of (standing_versions (shown self.now) relation row) }
    {
        match self.first_standing(relation, row) {
            Some(version) => self.standing(version),
            None => None,
        }
    }

    /// The numbers of all committed transactions.
    fn committed_numbers(&self) -> Result<Vec<u32>, AllocError>
        ensures { IfOk result (λ numbers. numbers.items ≡ committed_numbers (shown self.now).transactions) }
    {
        self.transactions
            .iter()
            .filter(|t| has_committed(t))
            .map(|t| t.number)
            .collect(self.allocator())
    }

    /// The snapshot of a transaction that begins: its own number and all committed ones.
    fn snapshot(&self, number: u32) -> Result<Vec<u32>, AllocError>
        ensures { IfOk result (λ numbers. numbers.items ≡ number ∷ committed_numbers (shown self.now).transactions) }
    {
        let mut numbers = self.committed_numbers()?;
        numbers.insert(0, number)?;
        Ok(numbers)
    }

    /// Begins a transaction of this owner and number.
    pub(crate) fn begin(&mut self, who: u32, number: u32) -> Result<(), AllocError>
        ensures ok { OnOk result (shown self.new ≡ with_transaction (shown self.old) (begun (shown self.old) who number)) }
        ensures err { OnErr result (shown self.new ≡ shown self.old) }
    {
        let snapshot = Listed::new(self.snapshot(number)?);
        self.transactions.push(Transaction {
            number,
            owner: who,
            standing: Standing::Open,
            snapshot,
        })?;
        Ok(())
    }

    /// Puts a version in front of the row, which the transaction at the place `maker` made.
    pub(crate) fn put(
        &mut self,
        maker: usize,
        relation: u8,
        row: u32,
        value: Option<Value>,
    ) -> Result<(), AllocError>
        ensures ok { OnOk result (shown self.new ≡ with_version (shown self.old) (Some maker) relation row value) }
        ensures err { OnErr result (shown self.new ≡ shown self.old) }
    {
        let version = Version {
            relation,
            row,
            maker,
            value,
        };
        self.versions.insert(0, version)?;
        Ok(())
    }

    /// Ends the owner's open transaction.
    pub(crate) fn end(&mut self, who: u32, standing: Standing)
        ensures { shown self.new ≡ after_end (shown self.old) who standing }
    {
        for transaction in self.transactions.iter_mut() {
            end_if_open(transaction, who, standing);
        }
    }
}
