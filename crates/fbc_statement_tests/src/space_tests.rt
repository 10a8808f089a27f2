//! Free pages of a new file: it uses pages 0 to 3.

use crate::driver::{Did, check, desk_of, get, need};
use fbc_desk::Desk;
use fbc_levels::Level;
use fbc_space::{
    Found, FreeSearch, FreeStep, Passed, TakeStep, Taking, find_free, hold_free, try_take,
};
use std::process::Abort;
use std::test::Fail;

/// So many pages may a file of this size have, where its device reaches far enough.
const LIMIT: u32 = 516_096;

/// What the search comes to, with the pages that it wants.
fn found(rt: &impl Abort, desk: &mut Desk, passed: &Passed) -> Result<Found, Fail> {
    let mut search = FreeSearch::new();
    for _ in 0..2 {
        match find_free(&mut search, desk, LIMIT, passed) {
            Found::Miss(need) => get(rt, desk, need)?,
            found => return Ok(found),
        }
    }
    panic!(*rt; "one page is wanted at most")
}

#[test]
fn the_first_free_page_of_a_new_file_is_page_4(rt: HostRuntime) -> Result<(), Fail> {
    let mut desk = desk_of(&rt, rt.alloc())?;
    let passed = Passed::new();
    assert_eq!(rt; found(&rt, &mut desk, &passed)?, Found::Page { page: 4 });
    Ok(())
}

#[test]
fn a_page_that_is_passed_over_is_not_found(rt: HostRuntime) -> Result<(), Fail> {
    let mut desk = desk_of(&rt, rt.alloc())?;
    let mut passed = Passed::new();
    passed.add(4);
    assert_eq!(rt; found(&rt, &mut desk, &passed)?, Found::Page { page: 5 });
    Ok(())
}

/// The free page is used, and the page inventory over it.
fn hold(rt: &impl Abort, desk: &mut Desk, page: u32) -> Result<FreeStep, Fail> {
    for _ in 0..3 {
        match hold_free(desk, page) {
            FreeStep::Miss(need) => get(rt, desk, need)?,
            step => return Ok(step),
        }
    }
    panic!(*rt; "two pages are wanted at most")
}

#[test]
fn a_page_in_use_is_no_more_free(rt: HostRuntime) -> Result<(), Fail> {
    let mut desk = desk_of(&rt, rt.alloc())?;
    assert_eq!(rt; hold(&rt, &mut desk, 3)?, FreeStep::Gone);
    Ok(())
}

/// Page 4 becomes the first data page of the relation, as far as it may.
fn make(desk: &mut Desk) -> Result<TakeStep, Fail> {
    let mut stage = Taking::Free;
    Ok(try_take(&mut stage, desk, 4, 0, 0)?)
}

#[test]
fn a_free_page_becomes_a_data_page(rt: HostRuntime) -> Result<(), Fail> {
    let mut desk = desk_of(&rt, rt.alloc())?;
    get(&rt, &mut desk, need(0, Level::Pr))?;
    assert_eq!(rt; hold(&rt, &mut desk, 4)?, FreeStep::Here);
    assert!(rt; matches!(make(&mut desk)?, TakeStep::Done));
    check(
        &rt,
        &desk,
        &[Did::Pin(4), Did::Edit(1), Did::Before(1, 4), Did::Edit(4)],
    );
    Ok(())
}

#[test]
fn a_page_is_not_formatted_before_its_page_inventory_is_known_to_count(
    rt: HostRuntime,
) -> Result<(), Fail> {
    let mut desk = desk_of(&rt, rt.alloc())?;
    assert_eq!(rt; hold(&rt, &mut desk, 4)?, FreeStep::Here);
    assert!(rt; matches!(make(&mut desk)?, TakeStep::Refused));
    check(&rt, &desk, &[Did::Pin(4), Did::Edit(1)]);
    Ok(())
}
