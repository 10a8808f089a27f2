//! The number of a transaction: whether there is one more, its lock, and the header's next one.

ghost use Rattle.std.specs.Prelude.{◌≡◌, IfOk, OnErr};
ghost use Rattle.fbc_desk.specs.Calls.{GoesOn};
ghost use Rattle.fbc_tra.specs.Numbers.{IsLockOf, RaisesTo, bar, own_number, transaction_resource};

use crate::steps::BodyStep;
use fbc_desk::{Desk, Made};
use fbc_kinds::{Edit, Reply, Snapshot};
use fbc_levels::{Level, Resource, Series};
use fbc_reserve::Waiting;
use fbc_tip::least_active;
use std::alloc::AllocError;

/// What stands in the way of one number more, by the header and the transaction inventory pages that it names: no file
/// has that many numbers, or they have no place for it.
pub(crate) fn bar(desk: &Desk) -> Option<BodyStep>
    ensures { result ≡ bar desk.now }
{
    let numbers = desk.tip_numbers() as u64;
    let next = desk.cache().next();
    if next as u64 >= 16 * numbers {
        return Some(BodyStep::Over(Reply::TransactionLimit { next }));
    }
    if next as u64 >= numbers * desk.tip_count() as u64 {
        return Some(BodyStep::Unbuilt);
    }
    None
}

/// The transaction of this number as what is locked.
pub(crate) fn transaction(number: u32) -> Resource
    ensures { result ≡ transaction_resource number }
{
    Resource {
        series: Series::Transaction,
        key: number,
    }
}

/// The lock on the snapshot's own number, with the least active number as its data word.
pub(crate) fn lock_of(snapshot: &Snapshot, wait: bool) -> Waiting
    ensures { IsLockOf snapshot.now wait result }
{
    Waiting::new(
        transaction(snapshot.own),
        Level::Ex,
        wait,
        least_active(snapshot),
    )
}

/// The number of the open transaction, 0 where there is none.
fn own_number(desk: &Desk) -> u32
    ensures { result ≡ own_number desk.now }
{
    match desk.own() {
        Some(own) => own.snapshot.own,
        None => 0,
    }
}

/// The header gives out the number behind the own one. Whether it does: not where the edit does not have its grounds, or
/// no place.
///
/// # Errors
///
/// Want of memory: the desk is then as it was.
pub(crate) fn raise(desk: &mut Desk) -> Result<bool, AllocError>
    ensures raises { IfOk result (RaisesTo desk.old desk.new) }
    ensures goes { GoesOn desk.old desk.new }
    ensures err { OnErr result (desk.new ≡ desk.old) }
{
    let next = own_number(desk).saturating_add(1);
    match desk.edit(0, Edit::SetNext { next }, &[])? {
        Made::Done => Ok(true),
        Made::WriteFirst { .. } | Made::Refused => Ok(false),
    }
}
