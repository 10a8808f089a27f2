//! The player of steps: it drives a cache by hand over the pages of a file.

use crate::readers::answer;
use crate::steps::{Change, Row, Seen, Step};
use fbc_cache::{Cache, CacheFault, Edited, Need, Want};
use fbc_downgrade::{Serving, serve};
use fbc_kinds::Edit;
use fbc_levels::{Callback, Level, Resource};
use fbc_samples::{Part, page_of, shape};
use fbc_world::{Answer, Ask};
use std::alloc::Global;
use std::process::Abort;
use std::test::Fail;

/// The bytes of a page.
pub(crate) const PAGE: usize = 1024;

/// The owner that asks for the pages that are called back.
pub(crate) const ASKER: u32 = 7;

/// A cache of so many buffers that holds nothing.
pub(crate) fn cache_of(rt: &impl Abort, alloc: Global, buffers: u32) -> Result<Cache, Fail> {
    match shape() {
        Some(shape) => Ok(Cache::new(alloc, buffers, shape)?),
        None => panic!(*rt; "the sample has a shape"),
    }
}

/// Tables of steps that are taken in turn, in a new cache of so many buffers, over the pages of a file.
#[derive(Clone, Copy)]
pub(crate) struct Scene {
    pub(crate) name: &'static str,
    pub(crate) buffers: u32,
    pub(crate) file: &'static [Part],
    pub(crate) tables: &'static [&'static [Row]],
}

/// Plays each scene in a cache of its own.
pub(crate) fn play(rt: &impl Abort, alloc: Global, scenes: &[Scene]) -> Result<(), Fail> {
    for scene in scenes {
        let mut cache = cache_of(rt, alloc, scene.buffers)?;
        take_all(rt, &mut cache, scene)?;
    }
    Ok(())
}

/// Takes the steps of the scene's tables in turn.
fn take_all(rt: &impl Abort, cache: &mut Cache, scene: &Scene) -> Result<(), Fail> {
    for rows in scene.tables {
        check(rt, cache, scene.name, scene.file, rows)?;
    }
    Ok(())
}

/// Asserts what is seen of each step in turn.
pub(crate) fn check(
    rt: &impl Abort,
    cache: &mut Cache,
    name: &str,
    file: &[Part],
    rows: &[Row],
) -> Result<(), Fail> {
    for (at, (step, seen)) in rows.iter().enumerate() {
        assert_eq!(*rt;
            take_step(rt, cache, file, step)?,
            *seen,
            "{name}: row {at}"
        );
    }
    Ok(())
}

/// The pages come into use in turn: each is locked, and read.
pub(crate) fn bring(rt: &impl Abort, cache: &mut Cache, first: u32, end: u32) -> Result<(), Fail> {
    for page in first..end {
        let rows = [
            (Step::Want(page, Level::Pr), Seen::Lock(page, Level::Pr)),
            (Step::Want(page, Level::Pr), Seen::Read(page)),
            (Step::Want(page, Level::Pr), Seen::Here),
        ];
        check(rt, cache, "pages come into use", &[], &rows)?;
    }
    Ok(())
}

/// Takes a step.
fn take_step(rt: &impl Abort, cache: &mut Cache, file: &[Part], step: &Step) -> Result<Seen, Fail> {
    match step {
        Step::Want(page, level) => {
            let image = page_of(file, *page, &[]);
            return want(rt, cache, need(*page, *level), &image);
        }
        Step::Make(page) => return want(rt, cache, fresh(*page), &[0; PAGE]),
        Step::Serve(page, keep) => return follow(rt, cache, *page, *keep),
        Step::Queue(page, level) => return queue(rt, cache, need(*page, *level)),
        Step::Look => return take(rt, cache, &Ask::Look, &[0; PAGE]),
        Step::Edit(page, change, highs) => return edit(rt, cache, *page, change, highs),
        Step::Pin(page) => cache.pin(*page),
        Step::Unpin(page) => cache.unpin(*page),
        Step::Touch(page) => cache.touch(*page),
        Step::See(question) => return Ok(answer(rt, cache, file, question)),
    }
    Ok(Seen::Done)
}

/// A page that is to be read, or changed.
pub(crate) fn need(page: u32, level: Level) -> Need {
    Need {
        page,
        level,
        wait: true,
        fresh: false,
    }
}

/// A page that is to be formatted.
pub(crate) fn fresh(page: u32) -> Need {
    Need {
        page,
        level: Level::Ex,
        wait: true,
        fresh: true,
    }
}

/// What the need comes to, and the cache after the answer that lets go on. What is read is the image.
pub(crate) fn want(
    rt: &impl Abort,
    cache: &mut Cache,
    need: Need,
    image: &[u8; PAGE],
) -> Result<Seen, Fail> {
    assert!(*rt; cache.may_want(&need));
    match cache.want(need)? {
        Want::Here => Ok(Seen::Here),
        Want::Must(ask) => take(rt, cache, &ask, image),
    }
}

/// What the callback of the page comes to, and the cache after the answer that lets go on.
fn follow(rt: &impl Abort, cache: &mut Cache, page: u32, keep: Level) -> Result<Seen, Fail> {
    let callback = Callback {
        page,
        keep,
        asker: ASKER,
    };
    match serve(cache, callback) {
        Serving::Later => Ok(Seen::Later),
        Serving::Done => Ok(Seen::Served),
        Serving::Must(ask) => take(rt, cache, &ask, &[0; PAGE]),
    }
}

/// What is wanted is asked for, and waited for.
fn queue(rt: &impl Abort, cache: &mut Cache, need: Need) -> Result<Seen, Fail> {
    assert!(*rt; cache.may_want(&need));
    assert!(*rt; cache.page_size() == 1024);
    match cache.want(need)? {
        Want::Here => Ok(Seen::Here),
        Want::Must(ask) => {
            cache.take(&ask, &Answer::Queued, &[0; PAGE])?;
            Ok(seen_of(&ask))
        }
    }
}

/// The cache takes the answer that lets go on. What is read is the image.
fn take(rt: &impl Abort, cache: &mut Cache, ask: &Ask, image: &[u8; PAGE]) -> Result<Seen, Fail> {
    assert!(*rt; cache.page_size() == 1024);
    match cache.take(ask, &answer_to(ask), image) {
        Ok(()) => Ok(seen_of(ask)),
        Err(CacheFault::Damaged { page, rule }) => Ok(Seen::Damaged(page, rule)),
        Err(CacheFault::Memory) => Err(Fail::from(CacheFault::Memory)),
    }
}

/// The answer that lets go on.
fn answer_to(ask: &Ask) -> Answer {
    match ask {
        Ask::Lock { .. } | Ask::Look => Answer::Granted,
        Ask::Read { .. } => Answer::PageIs { length: 1024 },
        Ask::Write { .. } => Answer::Written,
        _ => Answer::Noted,
    }
}

/// What is seen of an ask.
pub(crate) fn seen_of(ask: &Ask) -> Seen {
    match ask {
        Ask::Lock {
            resource,
            level,
            wait: true,
            word: 0,
        } => Seen::Lock(resource.key, *level),
        Ask::Look => Seen::Look,
        Ask::Lower { resource, level } => Seen::Lower(resource.key, *level),
        Ask::Read { page } => Seen::Read(*page),
        Ask::Write { page, cause } => Seen::Write(*page, *cause),
        _ => Seen::Other,
    }
}

/// Changes a page that is held in EX and in use, after these pages in the order of writes.
fn edit(
    rt: &impl Abort,
    cache: &mut Cache,
    page: u32,
    change: &Change,
    highs: &[u32],
) -> Result<Seen, Fail> {
    let edit = edit_of(page, change);
    assert!(*rt; cache.may_edit(page, &edit)?);
    match cache.edit(page, edit, highs)? {
        Edited::Done => Ok(Seen::Edited),
        Edited::WriteFirst { page, high } => Ok(Seen::WriteFirst(page, high)),
    }
}

/// The edit of the page.
pub(crate) fn edit_of(page: u32, change: &Change) -> Edit {
    match change {
        Change::Take(page) => Edit::TakePage { page: *page },
        Change::Format(kind, sequence) => Edit::Format {
            kind: *kind,
            page,
            relation: 0,
            sequence: *sequence,
        },
        Change::Name(slot, page) => Edit::Name {
            slot: *slot,
            page: *page,
        },
    }
}
