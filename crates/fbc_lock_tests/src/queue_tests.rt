//! The queues: who waits in a circle, who is granted next, and what a dead owner leaves.

use crate::steps::On::{Page, Relation, Transaction};
use crate::steps::Step::{Ask, Circle, Die, Grant, Look, Lower, Purge, Used, Withdraw};
use crate::steps::{Step, play};
use fbc_levels::Level::{Ex, Free, Pr, Sr};
use fbc_lock_table::{Asked, Looked};
use std::test::Fail;

const CIRCLES: &[Step] = &[
    Ask(1, Transaction(1), Ex, Asked::Granted),
    Ask(2, Transaction(2), Ex, Asked::Granted),
    Ask(3, Transaction(3), Ex, Asked::Granted),
    Ask(1, Transaction(2), Sr, Asked::Queued),
    // A wait that meets no circle.
    Circle(1, &[]),
    Ask(4, Transaction(1), Sr, Asked::Queued),
    Ask(2, Transaction(1), Sr, Asked::Queued),
    // A circle of two, and an owner that waits for it from outside.
    Circle(2, &[1, 2]),
    Circle(4, &[]),
    Withdraw(2),
    Ask(2, Transaction(3), Sr, Asked::Queued),
    Ask(3, Transaction(1), Sr, Asked::Queued),
    // A circle of three, which ends with the death of one.
    Circle(3, &[1, 2, 3]),
    Circle(4, &[]),
    Die(3),
    Circle(2, &[]),
];

#[test]
fn circles_of_waiting_owners(rt: HostRuntime) -> Result<(), Fail> {
    Ok(play(&rt, rt.alloc(), 16, CIRCLES)?)
}

const READERS: &[Step] = &[
    Ask(1, Page(3), Ex, Asked::Granted),
    Ask(4, Page(3), Pr, Asked::Queued),
    Look(4, Looked::NotYet { holder: 1 }),
    Ask(3, Page(3), Pr, Asked::Queued),
    Look(3, Looked::NotYet { holder: 1 }),
    Ask(5, Page(3), Ex, Asked::Queued),
    Look(5, Looked::NotYet { holder: 1 }),
    Ask(2, Page(3), Pr, Asked::Queued),
    Look(2, Looked::NotYet { holder: 1 }),
    Die(3),
    Grant(Page(3), None),
    Lower(1, Page(3), Free),
    Grant(Page(3), Some(4)),
    Grant(Page(3), Some(2)),
    Grant(Page(3), None),
    Look(2, Looked::Granted),
    Look(5, Looked::NotYet { holder: 2 }),
    Lower(4, Page(3), Free),
    Lower(2, Page(3), Free),
    Grant(Page(3), Some(5)),
    Grant(Page(3), None),
];

#[test]
fn a_queue_of_readers_behind_a_writer(rt: HostRuntime) -> Result<(), Fail> {
    Ok(play(&rt, rt.alloc(), 16, READERS)?)
}

const LEFT: &[Step] = &[
    Ask(1, Page(5), Pr, Asked::Granted),
    Ask(2, Transaction(9), Ex, Asked::Granted),
    Ask(1, Relation(0), Sr, Asked::Granted),
    Ask(1, Transaction(9), Sr, Asked::Queued),
    Die(1),
    Purge(1, Some(Page(5))),
    Purge(1, Some(Relation(0))),
    Purge(1, Some(Transaction(9))),
    Purge(1, None),
    Used(1),
];

#[test]
fn a_dead_owner_is_purged(rt: HostRuntime) -> Result<(), Fail> {
    Ok(play(&rt, rt.alloc(), 16, LEFT)?)
}
