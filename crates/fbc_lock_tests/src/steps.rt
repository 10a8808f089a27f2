//! Calls of the lock manager as rows, each with what it is to answer.

use fbc_blocking::{blocked_by, next_callback};
use fbc_levels::{Callback, Cycle, Level, Resource, Series, join};
use fbc_lock_table::{Asked, LockTable, Looked};
use fbc_owner_queues::{cycle_from, grant_waiting, living_owners_are_few, purge};
use std::alloc::{AllocError, Global};
use std::process::Abort;

/// What is locked: the page, transaction or relation of that number.
#[derive(Clone, Copy, Debug)]
pub(crate) enum On {
    Page(u32),
    Transaction(u32),
    Relation(u32),
}

/// A call, most often of the owner that is named first, and last what it is to answer, if it answers.
#[derive(Clone, Copy, Debug)]
pub(crate) enum Step {
    /// An ask for a level, which waits where that is not granted.
    Ask(u32, On, Level, Asked),
    /// An ask that does not wait.
    TryAsk(u32, On, Level, Asked),
    Look(u32, Looked),
    Withdraw(u32),
    Lower(u32, On, Level),
    Die(u32),
    /// The next grant of what waits, and the owner that it goes to.
    Grant(On, Option<u32>),
    /// The owner is dead, and the first thing goes that it left.
    Purge(u32, Option<On>),
    /// The circle that the owner waits in; none is empty.
    Circle(u32, &'static [u32]),
    /// The callback of the least page above this one.
    Called(u32, Option<u32>, Option<Callback>),
    /// Who waits for what the owner holds of the page of that number.
    BlockedBy(u32, u32, Option<u32>),
    /// The level that the owner is granted.
    Holds(u32, On, Level),
    /// The least data word of the living in the series.
    Least(Series, Option<u32>),
    /// How many requests there are.
    Used(u32),
}

/// Takes the steps in turn, over a table of so many requests.
pub(crate) fn play(
    rt: &impl Abort,
    alloc: Global,
    capacity: u32,
    steps: &[Step],
) -> Result<(), AllocError> {
    let mut table = LockTable::new(alloc, capacity)?;
    for step in steps {
        take(rt, &mut table, step);
    }
    Ok(())
}

fn take(rt: &impl Abort, table: &mut LockTable, step: &Step) {
    match step {
        Step::Ask(owner, on, level, answer) => {
            assert_eq!(*rt;
                ask(rt, table, *owner, *on, *level, true),
                *answer,
                "{step:?}"
            );
        }
        Step::TryAsk(owner, on, level, answer) => {
            assert_eq!(*rt;
                ask(rt, table, *owner, *on, *level, false),
                *answer,
                "{step:?}"
            );
        }
        Step::Look(owner, answer) => assert_eq!(*rt; table.look(*owner), *answer, "{step:?}"),
        Step::Withdraw(owner) => table.withdraw(*owner),
        Step::Lower(owner, on, level) => lower(rt, table, *owner, resource(*on), *level),
        Step::Die(owner) => table.die(*owner),
        Step::Grant(on, owner) => {
            assert_eq!(*rt; grant_waiting(table, resource(*on)), *owner, "{step:?}");
        }
        Step::Purge(owner, on) => {
            let left = on.map(|on| resource(on));
            assert_eq!(*rt; purge_dead(table, *owner), left, "{step:?}");
        }
        _ => tell(rt, table, step),
    }
}

/// The steps that change nothing.
fn tell(rt: &impl Abort, table: &LockTable, step: &Step) {
    match step {
        Step::Circle(owner, owners) => match circle(rt, table, *owner) {
            Some(cycle) => assert_eq!(*rt; cycle.owners(), *owners, "{step:?}"),
            None => assert!(*rt; owners.is_empty(), "{step:?}"),
        },
        Step::Called(owner, above, callback) => {
            assert_eq!(*rt; next_callback(table, *owner, *above), *callback, "{step:?}");
        }
        Step::BlockedBy(owner, page, asker) => {
            assert_eq!(*rt; blocked_by(table, *owner, *page), *asker, "{step:?}");
        }
        Step::Holds(owner, on, level) => {
            assert_eq!(*rt; table.granted(*owner, resource(*on)), *level, "{step:?}");
        }
        Step::Least(series, word) => {
            assert_eq!(*rt; table.least_data(*series), *word, "{step:?}");
        }
        Step::Used(used) => assert_eq!(*rt; table.used(), *used, "{step:?}"),
        _ => panic!(*rt; "{step:?}"),
    }
}

fn resource(on: On) -> Resource {
    let (series, key) = match on {
        On::Page(key) => (Series::Page, key),
        On::Transaction(key) => (Series::Transaction, key),
        On::Relation(key) => (Series::Relation, key),
    };
    Resource { series, key }
}

/// Asks, where the owner may; the data word is ten times the resource's number.
fn ask(
    rt: &impl Abort,
    table: &mut LockTable,
    owner: u32,
    on: On,
    level: Level,
    wait: bool,
) -> Asked {
    let resource = resource(on);
    assert!(*rt; table.may_ask(owner, resource, level));
    let word = resource.key.saturating_mul(10);
    table.ask(owner, resource, level, wait, word)
}

fn lower(rt: &impl Abort, table: &mut LockTable, owner: u32, resource: Resource, level: Level) {
    let granted = table.granted(owner, resource);
    assert!(*rt; join(granted, level) == granted);
    table.lower(owner, resource, level);
}

fn purge_dead(table: &mut LockTable, owner: u32) -> Option<Resource> {
    table.die(owner);
    purge(table, owner)
}

/// The circle from the owner in a table of at most eight requests.
fn circle(rt: &impl Abort, table: &LockTable, owner: u32) -> Option<Cycle> {
    assert!(*rt; table.used() <= 8);
    living_owners_are_few();
    cycle_from(table, owner)
}
