//! What the begin and the commit of the first transaction of a new file ask for, and a begin past the last number.

use crate::driver::{desk_of, take};
use fbc_cache::{Need, Want};
use fbc_desk::{Desk, Own};
use fbc_kinds::Reply;
use fbc_levels::{Level, Resource, Series};
use fbc_samples::{FRESH, Part, page_of};
use fbc_tra::{Begin, BodyStep, Commit};
use fbc_world::{Answer, Ask, Cause};
use std::alloc::Global;
use std::process::Abort;
use std::test::Fail;

/// How many pages and asks a body comes to at most.
const MOST_STEPS: usize = 8;

/// What was asked.
#[derive(Clone, Copy, Debug, PartialEq, Eq)]
enum Asked {
    /// The lock of a page, in a level, and whether it is waited for.
    Page(u32, Level, bool),
    /// The lock of a transaction, in a level, whether it is waited for, and the data word.
    Transaction(u32, Level, bool, u32),
    Read(u32),
    /// The write of a page for a commit.
    Write(u32),
    /// A page is given up.
    LowerPage(u32),
    /// The lock of a transaction is given up.
    LowerTransaction(u32),
    Else,
}

/// What an ask asks.
fn asked_by(ask: &Ask) -> Asked {
    match ask {
        Ask::Lock {
            resource,
            level,
            wait,
            word,
        } => lock_of(*resource, *level, *wait, *word),
        Ask::Lower {
            resource,
            level: Level::Free,
        } => lowering_of(*resource),
        Ask::Read { page } => Asked::Read(*page),
        Ask::Write {
            page,
            cause: Cause::Commit,
        } => Asked::Write(*page),
        _ => Asked::Else,
    }
}

/// The lock of a page or of a transaction.
fn lock_of(resource: Resource, level: Level, wait: bool, word: u32) -> Asked {
    match resource.series {
        Series::Page => Asked::Page(resource.key, level, wait),
        Series::Transaction => Asked::Transaction(resource.key, level, wait, word),
        Series::Relation => Asked::Else,
    }
}

/// The end of the lock of a page or of a transaction.
fn lowering_of(resource: Resource) -> Asked {
    match resource.series {
        Series::Page => Asked::LowerPage(resource.key),
        Series::Transaction => Asked::LowerTransaction(resource.key),
        Series::Relation => Asked::Else,
    }
}

/// Asserts what was asked, in its order.
fn check_asked(rt: &impl Abort, asked: &[Asked], due: &[Asked]) {
    assert_eq!(*rt; asked.len(), due.len());
    for (one, other) in asked.iter().zip(due) {
        assert_eq!(*rt; *one, *other);
    }
}

/// An ask is noted and carried out, with the answer that lets go on.
fn perform(
    rt: &impl Abort,
    desk: &mut Desk,
    ask: &Ask,
    asked: &mut Vec<Asked>,
) -> Result<(), Fail> {
    asked.push(asked_by(ask))?;
    take(rt, desk, ask)
}

/// Gets a page, and notes what is asked for it.
fn get(rt: &impl Abort, desk: &mut Desk, need: Need, asked: &mut Vec<Asked>) -> Result<(), Fail> {
    for _ in 0..MOST_STEPS {
        assert!(*rt; desk.cache().may_want(&need));
        assert!(*rt; need.page < desk.cache().shape().limit);
        match desk.want(need)? {
            Want::Here => return Ok(()),
            Want::Must(ask) => perform(rt, desk, &ask, asked)?,
        }
    }
    panic!(*rt; "the page is there")
}

/// Does what a body comes to. Whether that is its end.
fn step_on(
    rt: &impl Abort,
    desk: &mut Desk,
    step: BodyStep,
    asked: &mut Vec<Asked>,
) -> Result<bool, Fail> {
    match step {
        BodyStep::Done => return Ok(true),
        BodyStep::Miss(need) => get(rt, desk, need, asked)?,
        BodyStep::Must(ask) => perform(rt, desk, &ask, asked)?,
        _ => panic!(*rt; "nothing stands in the way"),
    }
    Ok(false)
}

/// A transaction begins, and what it asks is noted.
fn begin(
    rt: &impl Abort,
    alloc: Global,
    desk: &mut Desk,
    asked: &mut Vec<Asked>,
) -> Result<(), Fail> {
    let mut body = Begin::new(true);
    for _ in 0..MOST_STEPS {
        let step = body.next(alloc, desk)?;
        if step_on(rt, desk, step, asked)? {
            return Ok(());
        }
        body.take(&Answer::Granted);
    }
    panic!(*rt; "the transaction begins")
}

/// The transaction commits, and what it asks is noted.
fn commit(
    rt: &impl Abort,
    desk: &mut Desk,
    number: u32,
    asked: &mut Vec<Asked>,
) -> Result<(), Fail> {
    let mut body = Commit::new(number);
    for _ in 0..MOST_STEPS {
        let step = body.next(desk)?;
        if step_on(rt, desk, step, asked)? {
            return Ok(());
        }
    }
    panic!(*rt; "the transaction commits")
}

/// The number of a transaction that has begun whole, 0 where there is none.
fn number_of(own: &Option<Own>) -> u32 {
    match own {
        Some(own) if own.is_raised && !own.is_sealed => own.snapshot.own,
        _ => 0,
    }
}

/// What the first transaction asks for as it begins.
const BEGIN_ASKS: &[Asked] = &[
    Asked::Page(0, Level::Ex, true),
    Asked::Read(0),
    Asked::Page(2, Level::Pr, true),
    Asked::Read(2),
    Asked::Transaction(1, Level::Ex, true, 1),
];

/// What it asks for as it commits: the page with the mark is held in EX, and written behind the header.
const COMMIT_ASKS: &[Asked] = &[
    Asked::Write(0),
    Asked::LowerPage(2),
    Asked::Page(2, Level::Ex, true),
    Asked::Read(2),
    Asked::Write(2),
    Asked::LowerTransaction(1),
];

#[test]
fn the_first_transaction_asks_for_its_pages_and_then_for_its_number(
    rt: HostRuntime,
) -> Result<(), Fail> {
    let mut desk = desk_of(&rt, rt.alloc())?;
    let mut asked = Vec::new(rt.alloc());
    begin(&rt, rt.alloc(), &mut desk, &mut asked)?;
    check_asked(&rt, &asked, BEGIN_ASKS);
    assert_eq!(rt; number_of(desk.own()), 1);
    assert_eq!(rt; desk.cache().next(), 2);
    assert_eq!(rt; desk.cache().next_pinned(None), None);
    Ok(())
}

#[test]
fn a_commit_writes_the_header_before_the_mark(rt: HostRuntime) -> Result<(), Fail> {
    let mut desk = desk_of(&rt, rt.alloc())?;
    let mut before = Vec::new(rt.alloc());
    begin(&rt, rt.alloc(), &mut desk, &mut before)?;
    let mut asked = Vec::new(rt.alloc());
    commit(&rt, &mut desk, 1, &mut asked)?;
    check_asked(&rt, &asked, COMMIT_ASKS);
    assert!(rt; desk.own().is_none() && desk.cache().dirty().is_none());
    Ok(())
}

/// A header that names sixteen transaction inventory pages, of which each has 4,032 numbers, and gives out no further one.
const FULL: &[Part] = &[
    (32, &[0, 0xfc]),
    (40, &[16]),
    (336, &[2, 0, 0, 0, 4, 0, 0, 0, 5, 0, 0, 0, 6, 0, 0, 0]),
    (352, &[7, 0, 0, 0, 8, 0, 0, 0, 9, 0, 0, 0, 10, 0, 0, 0]),
    (368, &[11, 0, 0, 0, 12, 0, 0, 0, 13, 0, 0, 0, 14, 0, 0, 0]),
    (384, &[15, 0, 0, 0, 16, 0, 0, 0, 17, 0, 0, 0, 18, 0, 0, 0]),
];

/// The desk takes the answer that lets go on, with this image of the header.
fn take_header(rt: &impl Abort, desk: &mut Desk, ask: &Ask, image: &[u8; 1024]) {
    assert!(*rt; desk.cache().page_size() == 1024);
    let answer = match ask {
        Ask::Read { page: 0 } => Answer::PageIs { length: 1024 },
        _ => Answer::Granted,
    };
    assert!(*rt; desk.take(ask, &answer, image).is_ok());
}

/// Gets the header with these changes.
fn get_header(rt: &impl Abort, desk: &mut Desk, need: Need, changes: &[Part]) -> Result<(), Fail> {
    let image = page_of(FRESH, 0, changes);
    for _ in 0..MOST_STEPS {
        assert!(*rt; desk.cache().may_want(&need));
        assert!(*rt; need.page < desk.cache().shape().limit);
        match desk.want(need)? {
            Want::Here => return Ok(()),
            Want::Must(ask) => take_header(rt, desk, &ask, &image),
        }
    }
    panic!(*rt; "the header is there")
}

/// What a begin comes to behind its first page, the header with these changes.
fn begin_over(rt: &impl Abort, alloc: Global, changes: &[Part]) -> Result<BodyStep, Fail> {
    let mut desk = desk_of(rt, alloc)?;
    let mut body = Begin::new(true);
    match body.next(alloc, &mut desk)? {
        BodyStep::Miss(need) => get_header(rt, &mut desk, need, changes)?,
        _ => panic!(*rt; "the header is missed"),
    }
    Ok(body.next(alloc, &mut desk)?)
}

#[test]
fn no_transaction_begins_past_the_last_number(rt: HostRuntime) -> Result<(), Fail> {
    let step = begin_over(&rt, rt.alloc(), FULL)?;
    assert!(rt;
        matches!(
            step,
            BodyStep::Over(Reply::TransactionLimit { next: 64_512 })
        )
    );
    Ok(())
}

#[test]
fn a_further_transaction_inventory_page_is_not_built(rt: HostRuntime) -> Result<(), Fail> {
    // 4,032 is the first number that has no place on the one page.
    let step = begin_over(&rt, rt.alloc(), &[(32, &[0xc0, 0x0f])])?;
    assert!(rt; matches!(step, BodyStep::Unbuilt));
    Ok(())
}
