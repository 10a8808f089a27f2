//! How owners come: eight at a time, and no more than there are numbers for.

ghost use Rattle.std.specs.Prelude.{◌<◌, ◌+◌, OnOk};
ghost use Rattle.fbc_region_tests.specs.Gone.{HaveGone};

use crate::fixtures::{Fixture, enter};
use fbc_world::Answer;
use std::alloc::AllocError;
use std::test::Fail;

#[test]
fn a_ninth_owner_comes_in_the_place_of_a_dead_one(rt: HostRuntime) -> Result<(), Fail> {
    let mut fixture = Fixture::new(rt.alloc(), 16, &[])?;
    for who in 1..9 {
        assert_eq!(rt; fixture.step(&rt, who, enter(who as u8))?, Answer::Noted);
    }
    for name in 1..9 {
        assert!(rt; !fixture.region.may_perform(9, &enter(name)));
    }
    fixture.die(&rt, 5);
    for name in 0..10 {
        assert_eq!(rt; fixture.region.may_perform(9, &enter(name)), name == 5);
    }
    assert_eq!(rt; fixture.step(&rt, 9, enter(5))?, Answer::Noted);
    Ok(())
}

/// Behind so many owners that came and died comes the next one, and dies.
fn come_and_die(fixture: &mut Fixture, owners: u32) -> Result<(), AllocError>
    requires gone { HaveGone fixture.old.region.journal owners }
    requires few { owners < 65536 }
    ensures { OnOk result (HaveGone fixture.new.region.journal (owners + 1)) }
{
    let who = owners + 1;
    fixture.region.reserve(1)?;
    fixture
        .region
        .perform(who, enter(1), &[], fixture.image.as_mut_slice());
    fixture.region.die(who);
    Ok(())
}

#[test]
fn no_owner_comes_behind_the_last_number(rt: HostRuntime) -> Result<(), Fail> {
    let mut fixture = Fixture::new(rt.alloc(), 16, &[])?;
    for owners in 0..65_535 {
        come_and_die(&mut fixture, owners)?;
    }
    assert!(rt; fixture.region.may_perform(65_536, &enter(1)));
    come_and_die(&mut fixture, 65_535)?;
    assert_eq!(rt; fixture.region.owners(), 65_536);
    assert!(rt; !fixture.region.may_perform(65_537, &enter(1)));
    Ok(())
}
