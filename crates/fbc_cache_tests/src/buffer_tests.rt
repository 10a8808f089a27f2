//! The buffers: which page gives way, and what comes of a wait.

use fbc_buffers::Buffers;
use fbc_kinds::Page;
use fbc_levels::Level::{self, Ex, Free, Null, Pr};
use std::process::Abort;
use std::test::Fail;

/// A call of the buffers.
#[derive(Clone, Copy)]
enum Step {
    /// The page gets a buffer, in PR.
    Grant(u32),
    /// The page is waited for, in EX.
    Wait(u32),
    GrantWait,
    DropWait,
    Touch(u32),
    Pin(u32),
    Remove(u32),
    /// The page gets a blank copy that was edited.
    Edit(u32),
    Lower(u32, Level),
    IsFull,
    Victim,
    /// The pages of three buffers in the order of their last use.
    Order,
    Levels(u32),
    IsEditedBlank(u32),
}

/// What the buffers answer.
#[derive(Clone, Copy, Debug, PartialEq, Eq)]
enum Seen {
    Done,
    Is(bool),
    Page(Option<u32>),
    Pages(u32, u32, u32),
    /// The level of the page, and the one that it waits for.
    Levels(Level, Option<Level>),
    /// The page has no buffer, or there are not three.
    Nothing,
}

/// Asserts what the buffers answer to each call in turn.
fn check(rt: &impl Abort, buffers: &mut Buffers, rows: &[(Step, Seen)]) {
    for (at, (step, seen)) in rows.iter().enumerate() {
        assert_eq!(*rt; take_step(rt, buffers, step), *seen, "row {at}");
    }
}

/// Makes the call.
fn take_step(rt: &impl Abort, buffers: &mut Buffers, step: &Step) -> Seen {
    match step {
        Step::Grant(page) => add(rt, buffers, *page, false),
        Step::Wait(page) => add(rt, buffers, *page, true),
        Step::GrantWait => buffers.grant_wait(),
        Step::DropWait => buffers.drop_wait(),
        Step::Touch(page) => buffers.touch(*page),
        Step::Pin(page) => buffers.set_pinned(*page, true),
        Step::Remove(page) => buffers.remove(*page),
        Step::Edit(page) => edit(buffers, *page),
        Step::Lower(page, level) => buffers.set_level(*page, *level),
        Step::IsFull => return Seen::Is(buffers.is_full()),
        Step::Victim => return Seen::Page(buffers.victim()),
        Step::Order => return order(buffers),
        Step::Levels(page) => return levels(buffers, *page),
        Step::IsEditedBlank(page) => return Seen::Is(is_edited_blank(buffers, *page)),
    }
    Seen::Done
}

/// Gives the page a buffer, where there is room and it has none.
fn add(rt: &impl Abort, buffers: &mut Buffers, page: u32, waits: bool) {
    assert!(*rt; !buffers.is_full());
    assert!(*rt; buffers.buffer(page).is_none());
    if waits {
        buffers.add_waiting(page, Ex);
    } else {
        buffers.add_granted(page, Pr);
    }
}

fn edit(buffers: &mut Buffers, page: u32) {
    buffers.set_copy(page, Some(Page::Blank));
    buffers.set_dirty(page, true);
}

fn order(buffers: &Buffers) -> Seen {
    match buffers.held() {
        [first, second, third] => Seen::Pages(first.page, second.page, third.page),
        _ => Seen::Nothing,
    }
}

fn levels(buffers: &Buffers, page: u32) -> Seen {
    match buffers.buffer(page) {
        Some(buffer) => Seen::Levels(buffer.level, buffer.wanted),
        None => Seen::Nothing,
    }
}

fn is_edited_blank(buffers: &Buffers, page: u32) -> bool {
    match buffers.buffer(page) {
        Some(buffer) => buffer.is_dirty && matches!(buffer.copy, Some(Page::Blank)),
        None => false,
    }
}

/// The least used page gives way.
const LEAST_USED: &[(Step, Seen)] = &[
    (Step::Grant(5), Seen::Done),
    (Step::Grant(7), Seen::Done),
    (Step::Grant(9), Seen::Done),
    (Step::IsFull, Seen::Is(true)),
    (Step::Victim, Seen::Page(Some(5))),
    (Step::Touch(5), Seen::Done),
    (Step::Order, Seen::Pages(7, 9, 5)),
    (Step::Victim, Seen::Page(Some(7))),
    (Step::Pin(7), Seen::Done),
    (Step::Victim, Seen::Page(Some(9))),
    (Step::Remove(9), Seen::Done),
    (Step::Victim, Seen::Page(Some(5))),
    (Step::Grant(3), Seen::Done),
    (Step::Order, Seen::Pages(7, 5, 3)),
    (Step::Pin(5), Seen::Done),
    (Step::Pin(3), Seen::Done),
    (Step::Victim, Seen::Page(None)),
];

/// A wait is granted or dropped.
const WAITS: &[(Step, Seen)] = &[
    (Step::Wait(7), Seen::Done),
    (Step::Levels(7), Seen::Levels(Free, Some(Ex))),
    (Step::GrantWait, Seen::Done),
    (Step::Levels(7), Seen::Levels(Ex, None)),
    (Step::Edit(7), Seen::Done),
    (Step::Wait(9), Seen::Done),
    (Step::DropWait, Seen::Done),
    (Step::Levels(9), Seen::Nothing),
    (Step::IsEditedBlank(7), Seen::Is(true)),
    (Step::Lower(7, Null), Seen::Done),
    (Step::Levels(7), Seen::Levels(Null, None)),
];

#[test]
fn the_least_used_gives_way_and_waits_end(rt: HostRuntime) -> Result<(), Fail> {
    for (room, rows) in [(3, LEAST_USED), (2, WAITS)] {
        let mut buffers = Buffers::new(rt.alloc(), room)?;
        check(&rt, &mut buffers, rows);
    }
    Ok(())
}
