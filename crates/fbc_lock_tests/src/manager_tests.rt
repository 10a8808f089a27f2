//! The lock manager as a whole: table, queues and callbacks together.

use crate::steps::On::{Page, Transaction};
use crate::steps::Step::{Ask, Called, Circle, Grant, Holds, Look, Lower};
use crate::steps::{Step, play};
use fbc_levels::Callback;
use fbc_levels::Level::{Ex, Free, Pr, Sr};
use fbc_lock_table::{Asked, Looked};
use std::test::Fail;

const GIVING_WAY: &[Step] = &[
    Ask(1, Page(3), Pr, Asked::Granted),
    Ask(2, Page(3), Ex, Asked::Queued),
    Look(2, Looked::NotYet { holder: 1 }),
    Called(
        1,
        None,
        Some(Callback {
            page: 3,
            keep: Free,
            asker: 2,
        }),
    ),
    Lower(1, Page(3), Free),
    Grant(Page(3), Some(2)),
    Grant(Page(3), None),
    Look(2, Looked::Granted),
    Holds(2, Page(3), Ex),
];

#[test]
fn a_writer_waits_for_a_reader_to_give_way(rt: HostRuntime) -> Result<(), Fail> {
    Ok(play(&rt, rt.alloc(), 16, GIVING_WAY)?)
}

const EACH_OTHER: &[Step] = &[
    Ask(1, Transaction(1), Ex, Asked::Granted),
    Ask(2, Transaction(2), Ex, Asked::Granted),
    Ask(1, Transaction(2), Sr, Asked::Queued),
    Circle(1, &[]),
    Ask(2, Transaction(1), Sr, Asked::Queued),
    Circle(2, &[1, 2]),
];

#[test]
fn two_owners_wait_for_each_other(rt: HostRuntime) -> Result<(), Fail> {
    Ok(play(&rt, rt.alloc(), 16, EACH_OTHER)?)
}
