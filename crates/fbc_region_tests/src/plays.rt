//! Plays as rows of plain data: steps of owners with what each is told, deaths, and what stands between them.

use crate::fixtures::{Fixture, LAST, PAGE, file, page, transaction};
use fbc_levels::{Callback, Cycle, Level};
use fbc_world::{Answer, Ask, Cause};
use std::process::Abort;
use std::test::Fail;

/// A step of an owner.
#[derive(Clone, Copy)]
pub(crate) enum Step {
    /// It comes, by the name of that number.
    Enter(u8),
    /// It asks for the level on the page, and waits for it.
    LockPage(u32, Level),
    /// It asks for the level on the transaction, and waits for it.
    LockTransaction(u32, Level),
    /// It gives the page up.
    GiveUp(u32),
    Look,
    Withdraw,
    Poll,
    Read(u32),
    /// It writes the page for a commit.
    Write(u32),
}

/// What it is told.
#[derive(Clone, Copy, Debug, PartialEq, Eq)]
pub(crate) enum Told {
    Noted,
    Granted,
    Queued,
    /// That owner is in the way.
    NotYet(u32),
    /// A dead owner was reaped.
    Reaped(u32),
    /// So many requests are used, and there is no room.
    Room(u32),
    /// To wait would close a circle of these two owners.
    Deadlock(u32, u32),
    /// The device had so many bytes of the page.
    PageIs(u32),
    ReadFault,
    WriteFault,
    /// For this page waits that owner, and nothing of it may be kept.
    Callback(u32, u32),
    /// Anything else.
    Other,
}

/// What stands between two steps.
#[derive(Clone, Copy)]
pub(crate) enum Sight {
    /// So many requests stand in the lock table.
    Requests(u32),
    /// So many events stand in the journal.
    Events(u64),
    /// The owner is alive.
    Alive(u32),
    /// Whether somebody waits for a page of the owner.
    Called(u32, bool),
    /// The owner holds that level on the page.
    Holds(u32, u32, Level),
    /// The buffer has the last page of the fresh file.
    LastPage,
}

/// One row of a play.
#[derive(Clone, Copy)]
pub(crate) enum Row {
    /// The owner takes the step, and is told this.
    Step(u32, Step, Told),
    /// The owner dies, which is alive.
    Death(u32),
    /// This stands.
    Stands(Sight),
}

/// Plays the rows, one after the other.
pub(crate) fn follow(rt: &impl Abort, fixture: &mut Fixture, rows: &[Row]) -> Result<(), Fail> {
    for row in rows {
        match row {
            Row::Step(who, step, told) => {
                let answer = fixture.step(rt, *who, ask_of(*step))?;
                assert_eq!(*rt; told_of(answer), *told);
            }
            Row::Death(who) => fixture.die(rt, *who),
            Row::Stands(sight) => stands(rt, fixture, *sight)?,
        }
    }
    Ok(())
}

/// This stands.
fn stands(rt: &impl Abort, fixture: &Fixture, sight: Sight) -> Result<(), Fail> {
    let region = &fixture.region;
    match sight {
        Sight::Requests(requests) => assert_eq!(*rt; region.used_locks(), requests),
        Sight::Events(events) => assert_eq!(*rt; region.journal().length(), events),
        Sight::Alive(owner) => assert!(*rt; region.alive(owner)),
        Sight::Called(owner, called) => assert_eq!(*rt; region.called(owner), called),
        Sight::Holds(owner, key, level) => {
            assert_eq!(*rt; region.journal().granted(owner, page(key)), level);
        }
        Sight::LastPage => {
            let fresh = file(fixture.alloc)?;
            assert_eq!(*rt; fixture.image.as_slice(), &fresh[LAST * PAGE..]);
        }
    }
    Ok(())
}

/// The ask of a step.
fn ask_of(step: Step) -> Ask {
    match step {
        Step::Enter(name) => Ask::Enter { buffers: 4, name },
        Step::LockPage(key, level) => Ask::Lock {
            resource: page(key),
            level,
            wait: true,
            word: 0,
        },
        Step::LockTransaction(key, level) => Ask::Lock {
            resource: transaction(key),
            level,
            wait: true,
            word: 0,
        },
        Step::GiveUp(key) => Ask::Lower {
            resource: page(key),
            level: Level::Free,
        },
        Step::Look => Ask::Look,
        Step::Withdraw => Ask::Withdraw,
        Step::Poll => Ask::Poll { above: None },
        Step::Read(key) => Ask::Read { page: key },
        Step::Write(key) => Ask::Write {
            page: key,
            cause: Cause::Commit,
        },
    }
}

/// The answer as plain data.
fn told_of(answer: Answer) -> Told {
    match answer {
        Answer::Noted => Told::Noted,
        Answer::Granted => Told::Granted,
        Answer::Queued => Told::Queued,
        Answer::NotYet { holder } => Told::NotYet(holder),
        Answer::Reaped { owner } => Told::Reaped(owner),
        Answer::Room { used } => Told::Room(used),
        Answer::Deadlock { cycle } => circle_of(&cycle),
        Answer::PageIs { length } => Told::PageIs(length),
        Answer::ReadFault => Told::ReadFault,
        Answer::WriteFault => Told::WriteFault,
        Answer::Callback(callback) => called_of(callback),
        _ => Told::Other,
    }
}

/// A circle of two owners as plain data.
fn circle_of(cycle: &Cycle) -> Told {
    match cycle.owners() {
        [first, second] => Told::Deadlock(*first, *second),
        _ => Told::Other,
    }
}

/// A callback that leaves nothing as plain data.
fn called_of(callback: Callback) -> Told {
    match callback.keep {
        Level::Free => Told::Callback(callback.page, callback.asker),
        _ => Told::Other,
    }
}
