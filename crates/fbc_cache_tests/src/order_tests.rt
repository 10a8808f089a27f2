//! The order in which dirty pages are written.

use crate::driver::{Scene, bring, cache_of, check, play};
use crate::steps::Question::{Dirty, HasPairs, MayWant, Place, Victim};
use crate::steps::{Change, Row, Seen, Step};
use fbc_cache::Cache;
use fbc_kinds::Edge;
use fbc_levels::Level::{Ex, Free, Pr};
use fbc_world::Cause;
use std::process::Abort;
use std::test::Fail;

/// The pairs of the pages that are formatted, the oldest first.
const PAIRS: &[Edge] = &[Edge { high: 10, low: 11 }, Edge { high: 11, low: 12 }];

/// Pages 10, 11 and 12 are formatted, so that 10 is to be written before 11, and 11 before 12.
const FORMATTED: &[Row] = &[
    (Step::Make(10), Seen::Lock(10, Ex)),
    (Step::Make(10), Seen::Here),
    (Step::Pin(10), Seen::Done),
    (Step::Make(11), Seen::Lock(11, Ex)),
    (Step::Make(11), Seen::Here),
    (Step::Pin(11), Seen::Done),
    (Step::Make(12), Seen::Lock(12, Ex)),
    (Step::Make(12), Seen::Here),
    (Step::Pin(12), Seen::Done),
    (
        Step::Edit(10, Change::Format(3, 1), &[11, 12]),
        Seen::Edited,
    ),
    (
        Step::Edit(11, Change::Format(3, 1), &[10, 11]),
        Seen::Edited,
    ),
    (Step::Edit(12, Change::Format(3, 1), &[11]), Seen::Edited),
    (Step::Edit(12, Change::Format(3, 2), &[10]), Seen::Edited),
    (
        Step::Edit(10, Change::Format(3, 2), &[12]),
        Seen::WriteFirst(10, 12),
    ),
    (Step::See(Place(10)), Seen::Place(3, 1)),
    (Step::See(Place(12)), Seen::Place(3, 2)),
    (Step::See(HasPairs(PAIRS)), Seen::Is(true)),
];

/// Pages 12, 10 and 11 are used in turn, and in use no more.
const USED: &[Row] = &[
    (Step::Pin(12), Seen::Done),
    (Step::Unpin(12), Seen::Done),
    (Step::Pin(10), Seen::Done),
    (Step::Unpin(10), Seen::Done),
    (Step::Pin(11), Seen::Done),
    (Step::Unpin(11), Seen::Done),
];

/// The page is read in the place of a clean one.
fn replace(rt: &impl Abort, cache: &mut Cache, page: u32, victim: u32) -> Result<(), Fail> {
    let given_up = (Step::Want(page, Pr), Seen::Lower(victim, Free));
    check(rt, cache, "a clean page gives way", &[], &[given_up])?;
    bring(rt, cache, page, page.saturating_add(1))
}

/// Why the pages are written.
const FOR_61: Cause = Cause::Evict { wanted: 61 };

/// Page 12 gives way for page 61.
const WRITTEN: &[Row] = &[
    (Step::See(Dirty), Seen::Page(Some(10))),
    (Step::See(Victim), Seen::Page(Some(12))),
    (Step::Want(61, Pr), Seen::Write(10, FOR_61)),
    (Step::Want(61, Pr), Seen::Write(11, FOR_61)),
    (Step::Want(61, Pr), Seen::Write(12, FOR_61)),
    (Step::Want(61, Pr), Seen::Lower(12, Free)),
    (Step::Want(61, Pr), Seen::Lock(61, Pr)),
    (Step::Want(61, Pr), Seen::Read(61)),
    (Step::Want(61, Pr), Seen::Here),
    (Step::See(Dirty), Seen::Page(None)),
    (Step::See(Victim), Seen::Page(Some(10))),
];

#[test]
fn a_dirty_victim_is_written_after_those_before_it(rt: HostRuntime) -> Result<(), Fail> {
    let mut cache = cache_of(&rt, rt.alloc(), 24)?;
    check(&rt, &mut cache, "pages are formatted", &[], FORMATTED)?;
    bring(&rt, &mut cache, 13, 34)?;
    check(&rt, &mut cache, "pages are used", &[], USED)?;
    for (page, victim) in (40..61).zip(13..34) {
        replace(&rt, &mut cache, page, victim)?;
    }
    check(&rt, &mut cache, "page 12 gives way", &[], WRITTEN)
}

/// No page may give way for page 40.
const ALL_IN_USE: &[Row] = &[
    (Step::See(Victim), Seen::Page(None)),
    (Step::See(MayWant(40, Pr)), Seen::Is(false)),
];

const SCENES: &[Scene] = &[Scene {
    name: "all pages are in use",
    buffers: 3,
    file: &[],
    tables: &[FORMATTED, ALL_IN_USE],
}];

#[test]
fn no_page_gives_way_where_all_are_in_use(rt: HostRuntime) -> Result<(), Fail> {
    play(&rt, rt.alloc(), SCENES)
}
