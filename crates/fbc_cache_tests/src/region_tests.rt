//! A row of one owner is called back by another, through the shared region.

use crate::region_fixture::Move::{Die, Edit, IsCalled, Make, Poll, Serve, Want};
use crate::region_fixture::{Fixture, Move, Owner};
use crate::region_tests::Who::{Asker, Holder};
use crate::steps::{Change, Seen};
use fbc_levels::Level::Free;
use fbc_samples::{FRESH, Part, file_of, lay_all, page_of};
use fbc_world::Cause;
use std::alloc::Global;
use std::process::Abort;
use std::test::Fail;

/// Owner 1, which holds the pages, or owner 2, which asks for page 3.
#[derive(Clone, Copy)]
enum Who {
    Holder,
    Asker,
}

/// An owner, its step, and what is seen of it.
type Row = (Who, Move, Seen);

/// Why the pages are written.
const CALLED: Cause = Cause::CallbackOf { asker: 2 };

/// Owner 1 has the first row's pages in its drafts, owner 2 waits for page 3, and owner 1 learns of it.
const DRAFTED: &[Row] = &[
    (Holder, Want(1), Seen::Granted),
    (Holder, Want(1), Seen::PageIs(1024)),
    (Holder, Want(1), Seen::Here),
    (Holder, Edit(1, Change::Take(4), &[]), Seen::Edited),
    (Holder, Make(4), Seen::Granted),
    (Holder, Make(4), Seen::Here),
    (Holder, Edit(4, Change::Format(5, 0), &[1]), Seen::Edited),
    (Holder, Want(3), Seen::Granted),
    (Holder, Want(3), Seen::PageIs(1024)),
    (Holder, Want(3), Seen::Here),
    (Holder, Edit(3, Change::Name(0, 4), &[4]), Seen::Edited),
    (Asker, Want(3), Seen::Queued),
    (Asker, Want(3), Seen::NotYet(1)),
    (Holder, IsCalled, Seen::Is(true)),
    (Holder, Poll, Seen::Callback(3, Free, 2)),
];

/// The pages are written in order, and page 3 is given up.
const GIVEN_UP: &[Row] = &[
    (Holder, Serve, Seen::Write(1, CALLED)),
    (Holder, Serve, Seen::Write(4, CALLED)),
    (Holder, Serve, Seen::Write(3, CALLED)),
    (Holder, Serve, Seen::Lower(3, Free)),
    (Holder, Serve, Seen::Served),
    (Holder, Poll, Seen::NoCallback),
    (Asker, Want(3), Seen::Granted),
    (Asker, Want(3), Seen::PageIs(1024)),
    (Asker, Want(3), Seen::Here),
];

/// Owner 1 dies when one page is written.
const DIED: &[Row] = &[
    (Holder, Serve, Seen::Write(1, CALLED)),
    (Holder, Die, Seen::Done),
    (Asker, Want(3), Seen::Reaped(1)),
    (Asker, Want(3), Seen::Granted),
    (Asker, Want(3), Seen::PageIs(1024)),
    (Asker, Want(3), Seen::Here),
];

/// The steps of both owners over the fresh file.
fn play(rt: &impl Abort, alloc: Global, tables: &[&[Row]]) -> Result<Fixture, Fail> {
    let mut fixture = Fixture::new(rt, alloc)?;
    let mut holder = Owner::enter(rt, &mut fixture, 1)?;
    let mut asker = Owner::enter(rt, &mut fixture, 2)?;
    for rows in tables {
        check(rt, &mut fixture, &mut holder, &mut asker, rows)?;
    }
    Ok(fixture)
}

/// Asserts what is seen of each step in turn.
fn check(
    rt: &impl Abort,
    fixture: &mut Fixture,
    holder: &mut Owner,
    asker: &mut Owner,
    rows: &[Row],
) -> Result<(), Fail> {
    for (at, (who, step, seen)) in rows.iter().enumerate() {
        let answered = match who {
            Holder => holder.take(rt, fixture, step)?,
            Asker => asker.take(rt, fixture, step)?,
        };
        assert_eq!(*rt; answered, *seen, "row {at}");
    }
    Ok(())
}

/// Asserts what stands in the file: the fresh one, with so many bytes and these changes.
fn check_file(
    rt: &impl Abort,
    fixture: Fixture,
    length: usize,
    changes: &[Part],
) -> Result<(), Fail> {
    let mut wanted = file_of(fixture.alloc, length, FRESH)?;
    lay_all(changes, wanted.as_mut_slice());
    let Fixture {
        alloc: _,
        region,
        image: _,
    } = fixture;
    let (device, _) = region.into_parts();
    assert_eq!(*rt; device.bytes(), wanted.as_slice());
    Ok(())
}

/// What stands in the file once page 1 is written: page 4 is taken.
const TAKEN: &[Part] = &[(1040, &[0x1f])];

/// And once pages 4 and 3 are: page 4 has no row yet, and is named.
const NAMED: &[Part] = &[(1040, &[0x1f]), (3088, &[4]), (4096, &[5, 1, 0, 0, 4])];

#[test]
fn a_row_is_written_in_order_and_given_up(rt: HostRuntime) -> Result<(), Fail> {
    let fixture = play(&rt, rt.alloc(), &[DRAFTED, GIVEN_UP])?;
    let named = page_of(FRESH, 3, &[(16, &[4])]);
    assert_eq!(rt; fixture.image.as_slice(), named.as_slice());
    check_file(&rt, fixture, 5120, NAMED)
}

#[test]
fn a_death_leaves_what_was_written_by_then(rt: HostRuntime) -> Result<(), Fail> {
    let fixture = play(&rt, rt.alloc(), &[DRAFTED, DIED])?;
    let unnamed = page_of(FRESH, 3, &[]);
    assert_eq!(rt; fixture.image.as_slice(), unnamed.as_slice());
    check_file(&rt, fixture, 4096, TAKEN)
}
