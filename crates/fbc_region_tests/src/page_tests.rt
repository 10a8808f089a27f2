//! Reads and writes that fail, and what stands after them.

use crate::fixtures::{Fixture, LAST, PAGE, file};
use crate::plays::{Row, Sight, Step, Told, follow};
use fbc_outside::{CallKind, Fail as Failing};
use fbc_world::{Act, Cause, Journal};
use std::alloc::AllocError;
use std::test::Fail;

/// The first read fails, and the second one does not.
const READ_TWICE: &[Row] = &[
    Row::Step(1, Step::Enter(1), Told::Noted),
    Row::Step(1, Step::Read(3), Told::ReadFault),
    Row::Stands(Sight::Alive(1)),
    Row::Step(1, Step::Read(3), Told::PageIs(1024)),
    Row::Stands(Sight::Alive(1)),
    Row::Stands(Sight::LastPage),
];

#[test]
fn a_failed_read_may_be_made_again(rt: HostRuntime) -> Result<(), Fail> {
    let failing = Failing {
        kind: CallKind::Read,
        number: 1,
        landed: false,
    };
    let mut fixture = Fixture::new(rt.alloc(), 16, &[failing])?;
    follow(&rt, &mut fixture, READ_TWICE)
}

/// Owner 1 writes page 3, and the write fails.
const WRITE: &[Row] = &[
    Row::Step(1, Step::Enter(1), Told::Noted),
    Row::Step(1, Step::Write(3), Told::WriteFault),
];

#[test]
fn a_failed_write_leaves_the_old_page_or_the_new_one(rt: HostRuntime) -> Result<(), Fail> {
    for landed in [false, true] {
        let failing = Failing {
            kind: CallKind::Write,
            number: 1,
            landed,
        };
        let mut fixture = Fixture::new(rt.alloc(), 16, &[failing])?;
        fixture.fill(7);
        follow(&rt, &mut fixture, WRITE)?;
        assert!(rt; !fixture.region.alive(1));
        assert!(rt; ends_in_failed_write(fixture.region.journal())?);
        let mut wanted = file(rt.alloc())?;
        if landed {
            wanted[LAST * PAGE..].fill(7);
        }
        let Fixture {
            alloc: _,
            region,
            image: _,
        } = fixture;
        let (device, _) = region.into_parts();
        assert_eq!(rt; device.bytes(), wanted.as_slice());
    }
    Ok(())
}

/// Whether the third and last event is a write of page 3 by owner 1 for a commit, which failed.
fn ends_in_failed_write(journal: &Journal) -> Result<bool, AllocError> {
    if journal.length() != 3 {
        return Ok(false);
    }
    let event = journal.event(2)?;
    Ok(
        event.actor == 1
            && matches!(
                &event.act,
                Act::Write {
                    page: 3,
                    cause: Cause::Commit,
                    failed: true
                }
            ),
    )
}
