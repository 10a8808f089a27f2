//! Gets the pages that a desk wants, over the pages of a new file, as if nobody else were there.

use fbc_cache::{CacheFault, Need, Want};
use fbc_desk::Desk;
use fbc_levels::Level;
use fbc_samples::{FRESH, page_of, shape};
use fbc_world::{Answer, Ask, LocalEvent};
use std::alloc::Global;
use std::process::Abort;
use std::test::Fail;

/// How many steps a page takes at most, with all buffers free.
const MOST_STEPS: usize = 4;

/// A desk that holds nothing.
pub(crate) fn desk_of(rt: &impl Abort, alloc: Global) -> Result<Desk, Fail> {
    match shape() {
        Some(shape) => Ok(Desk::new(alloc, 24, shape)?),
        None => panic!(*rt; "the sample has a shape"),
    }
}

/// A page that is to be used in this level.
pub(crate) fn need(page: u32, level: Level) -> Need {
    Need {
        page,
        level,
        wait: true,
        fresh: false,
    }
}

/// Gets a page: each step that is due is taken, with the answer that lets go on.
pub(crate) fn get(rt: &impl Abort, desk: &mut Desk, need: Need) -> Result<(), Fail> {
    for _ in 0..MOST_STEPS {
        assert!(*rt; desk.cache().may_want(&need));
        assert!(*rt; need.page < desk.cache().shape().limit);
        match desk.want(need)? {
            Want::Here => return Ok(()),
            Want::Must(ask) => take(rt, desk, &ask)?,
        }
    }
    panic!(*rt; "the page is there")
}

/// The desk takes the answer that lets go on.
pub(crate) fn take(rt: &impl Abort, desk: &mut Desk, ask: &Ask) -> Result<(), Fail> {
    let image = page_of(FRESH, page_read(ask), &[]);
    assert!(*rt; desk.cache().page_size() == 1024);
    match desk.take(ask, &answer_to(ask), &image) {
        Ok(()) => Ok(()),
        Err(CacheFault::Memory) => Err(Fail::from(CacheFault::Memory)),
        Err(_) => panic!(*rt; "the pages of a new file are whole"),
    }
}

/// The page that a step reads.
fn page_read(ask: &Ask) -> u32 {
    match ask {
        Ask::Read { page } => *page,
        _ => 0,
    }
}

/// The answer that lets go on.
fn answer_to(ask: &Ask) -> Answer {
    match ask {
        Ask::Lock { .. } | Ask::Look => Answer::Granted,
        Ask::Read { .. } => Answer::PageIs { length: 1024 },
        Ask::Write { .. } => Answer::Written,
        _ => Answer::Noted,
    }
}

/// Something that was done since the last step.
#[derive(Clone, Copy, Debug, PartialEq, Eq)]
pub(crate) enum Did {
    Pin(u32),
    Unpin(u32),
    /// The first page is to be written before the second.
    Before(u32, u32),
    /// The page was edited.
    Edit(u32),
}

/// Asserts what was done since the last step, in its order.
pub(crate) fn check(rt: &impl Abort, desk: &Desk, due: &[Did]) {
    assert_eq!(*rt; desk.unsent().len(), due.len());
    for (event, did) in desk.unsent().iter().zip(due) {
        assert_eq!(*rt; did_by(event), *did);
    }
}

/// What an event tells.
fn did_by(event: &LocalEvent) -> Did {
    match *event {
        LocalEvent::Pin { page } => Did::Pin(page),
        LocalEvent::Unpin { page } => Did::Unpin(page),
        LocalEvent::Before { high, low } => Did::Before(high, low),
        LocalEvent::Edit { page, edit: _ } => Did::Edit(page),
    }
}
