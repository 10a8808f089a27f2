//! How pages come into use, and which of them gives way.

use crate::driver::{Scene, bring, cache_of, check, play};
use crate::steps::Question::{Header, MayWant, Pointers, Victim};
use crate::steps::{Row, Seen, Step};
use fbc_levels::Level::{Ex, Free, Pr};
use fbc_samples::ONE_ROW;
use std::test::Fail;

/// Page 10 is the last one used.
const USED_AGAIN: &[Row] = &[
    (Step::Pin(10), Seen::Done),
    (Step::Unpin(10), Seen::Done),
    (Step::Want(40, Pr), Seen::Lower(11, Free)),
    (Step::Want(40, Pr), Seen::Lock(40, Pr)),
    (Step::Want(40, Pr), Seen::Read(40)),
    (Step::Want(40, Pr), Seen::Here),
    (Step::See(Victim), Seen::Page(Some(12))),
    (Step::Want(10, Pr), Seen::Here),
];

/// The page is read, changed, read, and another one made.
const HIGHER: &[Row] = &[
    (Step::Want(10, Pr), Seen::Lock(10, Pr)),
    (Step::Want(10, Pr), Seen::Read(10)),
    (Step::Want(10, Pr), Seen::Here),
    (Step::Want(10, Ex), Seen::Lower(10, Free)),
    (Step::Want(10, Ex), Seen::Lock(10, Ex)),
    (Step::Want(10, Ex), Seen::Read(10)),
    (Step::Want(10, Ex), Seen::Here),
    (Step::Want(10, Pr), Seen::Here),
    (Step::Make(12), Seen::Lock(12, Ex)),
    (Step::Make(12), Seen::Here),
];

/// Page 10 is waited for, and page 11 wanted beside it.
const WAITED: &[Row] = &[
    (Step::Queue(10, Pr), Seen::Lock(10, Pr)),
    (Step::See(MayWant(11, Pr)), Seen::Is(false)),
    (Step::Want(10, Pr), Seen::Look),
    (Step::Want(10, Pr), Seen::Read(10)),
    (Step::Want(10, Pr), Seen::Here),
];

/// The header is read, and given up.
const REMEMBERED: &[Row] = &[
    (Step::Want(0, Pr), Seen::Lock(0, Pr)),
    (Step::Want(0, Pr), Seen::Read(0)),
    (Step::Want(0, Pr), Seen::Here),
    (Step::See(Header), Seen::Header(2, 1, 2)),
    (Step::See(Pointers(0)), Seen::Pointers(1, 3)),
    (Step::Want(0, Ex), Seen::Lower(0, Free)),
    (Step::See(Header), Seen::Header(0, 0, 0)),
    (Step::See(Pointers(0)), Seen::Pointers(1, 3)),
    (Step::See(Pointers(1)), Seen::Pointers(0, 0)),
];

/// What is needed in each cache.
const SCENES: &[Scene] = &[
    Scene {
        name: "a page is given up for a higher level",
        buffers: 3,
        file: &[],
        tables: &[HIGHER],
    },
    Scene {
        name: "one page is waited for at most",
        buffers: 3,
        file: &[],
        tables: &[WAITED],
    },
    Scene {
        name: "pointer pages are remembered without the header",
        buffers: 3,
        file: ONE_ROW,
        tables: &[REMEMBERED],
    },
];

#[test]
fn pages_come_into_use(rt: HostRuntime) -> Result<(), Fail> {
    play(&rt, rt.alloc(), SCENES)
}

#[test]
fn the_page_whose_last_use_is_longest_ago_gives_way(rt: HostRuntime) -> Result<(), Fail> {
    let mut cache = cache_of(&rt, rt.alloc(), 24)?;
    bring(&rt, &mut cache, 10, 34)?;
    check(&rt, &mut cache, "page 10 is used again", &[], USED_AGAIN)
}
