//! Two owners beside each other: one waits for the other, finds it dead, finds no room, or would wait in a circle.

use crate::fixtures::Fixture;
use crate::plays::{Row, Sight, Step, Told, follow};
use fbc_levels::Level;
use std::test::Fail;

/// Owner 1 reads page 3, and owner 2 waits for it.
const WRITER_BEHIND_READER: &[Row] = &[
    Row::Step(1, Step::Enter(1), Told::Noted),
    Row::Step(1, Step::LockPage(3, Level::Pr), Told::Granted),
    Row::Step(1, Step::Read(3), Told::PageIs(1024)),
    Row::Step(2, Step::Enter(2), Told::Noted),
    Row::Step(2, Step::LockPage(3, Level::Ex), Told::Queued),
    Row::Step(2, Step::Look, Told::NotYet(1)),
];

/// Owner 1 gives the page up.
const WAY_IS_GIVEN: &[Row] = &[
    Row::Stands(Sight::LastPage),
    Row::Step(1, Step::Poll, Told::Callback(3, 2)),
    Row::Stands(Sight::Called(1, true)),
    Row::Step(1, Step::GiveUp(3), Told::Noted),
    Row::Stands(Sight::Called(1, false)),
    Row::Step(2, Step::Look, Told::Granted),
];

#[test]
fn a_reader_gives_way_to_a_writer(rt: HostRuntime) -> Result<(), Fail> {
    let mut fixture = Fixture::new(rt.alloc(), 16, &[])?;
    follow(&rt, &mut fixture, WRITER_BEHIND_READER)?;
    follow(&rt, &mut fixture, WAY_IS_GIVEN)
}

/// Owner 1 dies instead.
const READER_DIES: &[Row] = &[
    Row::Death(1),
    Row::Step(2, Step::Look, Told::Reaped(1)),
    Row::Step(2, Step::Look, Told::Granted),
];

#[test]
fn a_writer_reaps_a_reader_that_died(rt: HostRuntime) -> Result<(), Fail> {
    let mut fixture = Fixture::new(rt.alloc(), 16, &[])?;
    follow(&rt, &mut fixture, WRITER_BEHIND_READER)?;
    follow(&rt, &mut fixture, READER_DIES)
}

/// Owner 1 holds page 3 by the only request that there is room for.
const FULL: &[Row] = &[
    Row::Step(1, Step::Enter(1), Told::Noted),
    Row::Step(1, Step::LockPage(3, Level::Ex), Told::Granted),
    Row::Step(2, Step::Enter(2), Told::Noted),
    Row::Stands(Sight::Requests(1)),
];

/// Owner 2 finds no room.
const NO_ROOM: &[Row] = &[
    Row::Step(2, Step::LockPage(2, Level::Pr), Told::Room(1)),
    Row::Stands(Sight::Requests(1)),
    Row::Stands(Sight::Holds(2, 2, Level::Free)),
];

#[test]
fn a_full_table_has_no_room(rt: HostRuntime) -> Result<(), Fail> {
    let mut fixture = Fixture::new(rt.alloc(), 1, &[])?;
    follow(&rt, &mut fixture, FULL)?;
    follow(&rt, &mut fixture, NO_ROOM)
}

/// Owner 1 dies. Before the first step there are six events: the opening, owner 1's three, owner 2's coming, and the death.
const ROOM_OF_THE_DEAD: &[Row] = &[
    Row::Death(1),
    Row::Step(2, Step::LockPage(2, Level::Pr), Told::Reaped(1)),
    Row::Stands(Sight::Requests(0)),
    Row::Stands(Sight::Holds(2, 2, Level::Free)),
    Row::Stands(Sight::Holds(1, 3, Level::Free)),
    Row::Stands(Sight::Events(7)),
    Row::Step(2, Step::LockPage(2, Level::Pr), Told::Granted),
    Row::Stands(Sight::Requests(1)),
    Row::Stands(Sight::Holds(2, 2, Level::Pr)),
    Row::Stands(Sight::Holds(1, 3, Level::Free)),
    Row::Stands(Sight::Events(9)),
];

#[test]
fn a_dead_owner_makes_room_in_a_full_table(rt: HostRuntime) -> Result<(), Fail> {
    let mut fixture = Fixture::new(rt.alloc(), 1, &[])?;
    follow(&rt, &mut fixture, FULL)?;
    follow(&rt, &mut fixture, ROOM_OF_THE_DEAD)
}

/// Each owner has a transaction, and would wait for the other's.
const CIRCLE: &[Row] = &[
    Row::Step(1, Step::Enter(1), Told::Noted),
    Row::Step(2, Step::Enter(2), Told::Noted),
    Row::Step(1, Step::LockTransaction(1, Level::Ex), Told::Granted),
    Row::Step(2, Step::LockTransaction(2, Level::Ex), Told::Granted),
    Row::Step(1, Step::LockTransaction(2, Level::Sr), Told::Queued),
    Row::Step(2, Step::LockTransaction(1, Level::Sr), Told::Deadlock(1, 2)),
    Row::Step(2, Step::Withdraw, Told::Granted),
    Row::Step(1, Step::Withdraw, Told::Noted),
    Row::Stands(Sight::Requests(2)),
];

#[test]
fn two_owners_would_wait_for_each_other(rt: HostRuntime) -> Result<(), Fail> {
    let mut fixture = Fixture::new(rt.alloc(), 16, &[])?;
    follow(&rt, &mut fixture, CIRCLE)
}
