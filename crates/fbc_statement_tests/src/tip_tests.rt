//! The snapshot of the first transaction of a new file.

use crate::driver::{desk_of, get, need};
use fbc_cache::Place;
use fbc_desk::{Desk, Held};
use fbc_kinds::{Snapshot, State};
use fbc_levels::Level;
use fbc_tip::{InventoryPart, TipStep, holds, least_active, try_inventory};
use std::alloc::Global;
use std::process::Abort;
use std::test::Fail;

/// Where the header stands.
const HEADER: Place = Place {
    kind: 1,
    relation: 0,
    sequence: 0,
};

/// The snapshot, with the page that it wants.
pub(crate) fn snapshot_of(
    rt: &impl Abort,
    alloc: Global,
    desk: &mut Desk,
) -> Result<Snapshot, Fail> {
    let mut part = InventoryPart::new();
    for _ in 0..2 {
        match try_inventory(alloc, &mut part, desk)? {
            TipStep::Done(snapshot) => return Ok(snapshot),
            TipStep::Miss(need) => get(rt, desk, need)?,
            TipStep::Damaged { page: _, rule: _ } => panic!(*rt; "the page is whole"),
        }
    }
    panic!(*rt; "one page is wanted at most")
}

#[test]
fn the_first_transaction_holds_itself_alone(rt: HostRuntime) -> Result<(), Fail> {
    let mut desk = desk_of(&rt, rt.alloc())?;
    get(&rt, &mut desk, need(0, Level::Ex))?;
    assert_eq!(rt; desk.hold_as(need(0, Level::Ex), HEADER), Held::Here);
    let snapshot = snapshot_of(&rt, rt.alloc(), &mut desk)?;
    assert_eq!(rt; snapshot.own, 1);
    assert_eq!(rt; snapshot.states.len(), 4032);
    assert!(rt;
        snapshot
            .states
            .items()
            .iter()
            .all(|state| *state == State::Active)
    );
    assert!(rt; holds(&snapshot, 1) && !holds(&snapshot, 2));
    assert_eq!(rt; least_active(&snapshot), 1);
    Ok(())
}
