//! What a desk tells of pins, and which edits it refuses.

use crate::driver::{Did, check, desk_of, get, need};
use fbc_cache::Place;
use fbc_desk::{Desk, Held, Made};
use fbc_kinds::{Edit, Rule};
use fbc_levels::Level;
use std::alloc::Global;
use std::process::Abort;
use std::test::Fail;

/// Where the first page inventory stands, page 1.
const INVENTORY: Place = Place {
    kind: 2,
    relation: 0,
    sequence: 0,
};

/// A desk that holds page 1, and uses it.
fn using_page_1(rt: &impl Abort, alloc: Global) -> Result<Desk, Fail> {
    let mut desk = desk_of(rt, alloc)?;
    get(rt, &mut desk, need(1, Level::Ex))?;
    assert_eq!(*rt; desk.hold_as(need(1, Level::Ex), INVENTORY), Held::Here);
    Ok(desk)
}

#[test]
fn a_pin_that_no_step_told_is_taken_back(rt: HostRuntime) -> Result<(), Fail> {
    let mut desk = using_page_1(&rt, rt.alloc())?;
    check(&rt, &desk, &[Did::Pin(1)]);
    desk.unpin(1);
    check(&rt, &desk, &[]);
    Ok(())
}

#[test]
fn a_pin_under_which_the_page_was_edited_stays(rt: HostRuntime) -> Result<(), Fail> {
    let mut desk = using_page_1(&rt, rt.alloc())?;
    let made = desk.edit(1, Edit::TakePage { page: 4 }, &[])?;
    assert_eq!(rt; made, Made::Done);
    desk.unpin_all();
    check(&rt, &desk, &[Did::Pin(1), Did::Edit(1), Did::Unpin(1)]);
    Ok(())
}

#[test]
fn an_edit_without_grounds_is_refused(rt: HostRuntime) -> Result<(), Fail> {
    let mut desk = using_page_1(&rt, rt.alloc())?;
    assert_eq!(rt;
        desk.edit(1, Edit::TakePage { page: 3 }, &[])?,
        Made::Refused
    );
    assert_eq!(rt;
        desk.edit(1, Edit::FreePage { page: 3 }, &[])?,
        Made::Refused
    );
    check(&rt, &desk, &[Did::Pin(1)]);
    Ok(())
}

#[test]
fn a_page_that_stands_elsewhere_is_damaged(rt: HostRuntime) -> Result<(), Fail> {
    let mut desk = desk_of(&rt, rt.alloc())?;
    let due = Place {
        kind: 2,
        relation: 0,
        sequence: 1,
    };
    assert_eq!(rt;
        desk.hold_as(need(1, Level::Pr), due),
        Held::Miss(need(1, Level::Pr))
    );
    get(&rt, &mut desk, need(1, Level::Pr))?;
    assert_eq!(rt;
        desk.hold_as(need(1, Level::Pr), due),
        Held::Damaged {
            page: 1,
            rule: Rule::Sequence
        }
    );
    Ok(())
}
