//! New rows of a new file, by its first transaction. A data page has place for 45 of them.

use crate::driver::{desk_of, get, need, take};
use crate::tip_tests::snapshot_of;
use fbc_cache::Place;
use fbc_desk::{Desk, Held, Made};
use fbc_kinds::{Edit, Flag, Value};
use fbc_levels::Level;
use fbc_rows::{InsertPart, RowStep, try_insert};
use fbc_world::Ask;
use std::alloc::Global;
use std::process::Abort;
use std::test::Fail;

/// Where the header stands.
const HEADER: Place = Place {
    kind: 1,
    relation: 0,
    sequence: 0,
};

/// A desk with the first transaction, which is open.
fn begun_desk(rt: &impl Abort, alloc: Global) -> Result<Desk, Fail> {
    let mut desk = desk_of(rt, alloc)?;
    get(rt, &mut desk, need(0, Level::Ex))?;
    assert_eq!(*rt; desk.hold_as(need(0, Level::Ex), HEADER), Held::Here);
    let snapshot = snapshot_of(rt, alloc, &mut desk)?;
    desk.begun(snapshot);
    assert_eq!(*rt; desk.edit(0, Edit::SetNext { next: 2 }, &[])?, Made::Done);
    desk.unpin_all();
    Ok(desk)
}

/// Puts one row: its number.
fn insert(rt: &impl Abort, desk: &mut Desk, place: &mut u32) -> Result<u32, Fail> {
    let mut part = InsertPart::new(*place);
    for _ in 0..20 {
        match try_insert(&mut part, desk, 0, place, 1, Value::new(b"a"))? {
            RowStep::Done { row } => return Ok(row),
            RowStep::Miss(need) => get(rt, desk, need)?,
            RowStep::Must(ask) => take(rt, desk, &ask)?,
            _ => panic!(*rt; "there is place"),
        }
    }
    panic!(*rt; "few pages are wanted")
}

#[test]
fn the_first_row_gets_a_page_of_its_own(rt: HostRuntime) -> Result<(), Fail> {
    let mut desk = begun_desk(&rt, rt.alloc())?;
    let mut place = 0;
    assert_eq!(rt; insert(&rt, &mut desk, &mut place)?, 0);
    assert_eq!(rt; desk.cache().slot(3, 0), 4);
    assert_eq!(rt; desk.cache().flag(4, 0), Flag::Primary);
    assert!(rt; !desk.cache().pinned(3) && !desk.cache().pinned(4));
    Ok(())
}

#[test]
fn a_row_behind_a_full_page_gets_the_next_page(rt: HostRuntime) -> Result<(), Fail> {
    let mut desk = begun_desk(&rt, rt.alloc())?;
    let mut place = 0;
    for row in 0..46 {
        assert_eq!(rt; insert(&rt, &mut desk, &mut place)?, row);
        take(&rt, &mut desk, &Ask::Poll { above: None })?;
    }
    assert_eq!(rt; place, 1);
    assert_eq!(rt; desk.cache().slot(3, 1), 5);
    Ok(())
}
