//! Callbacks that are served from a cache driven by hand.

use crate::driver::{ASKER, Scene, play};
use crate::steps::Question::Held;
use crate::steps::{Change, Row, Seen, Step};
use fbc_levels::Level::{Ex, Free, Pr};
use fbc_samples::FRESH;
use fbc_world::Cause;
use std::test::Fail;

/// Why the pages are written.
const CALLED: Cause = Cause::CallbackOf { asker: ASKER };

/// The first row comes to a new page: page 4 is taken in the page inventory, formatted, and named in the pointer page.
const ROW: &[Row] = &[
    (Step::Want(1, Ex), Seen::Lock(1, Ex)),
    (Step::Want(1, Ex), Seen::Read(1)),
    (Step::Want(1, Ex), Seen::Here),
    (Step::Pin(1), Seen::Done),
    (Step::Edit(1, Change::Take(4), &[]), Seen::Edited),
    (Step::Make(4), Seen::Lock(4, Ex)),
    (Step::Make(4), Seen::Here),
    (Step::Pin(4), Seen::Done),
    (Step::Edit(4, Change::Format(5, 0), &[1]), Seen::Edited),
    (Step::Want(3, Ex), Seen::Lock(3, Ex)),
    (Step::Want(3, Ex), Seen::Read(3)),
    (Step::Want(3, Ex), Seen::Here),
    (Step::Pin(3), Seen::Done),
    (Step::Edit(3, Change::Name(0, 4), &[4]), Seen::Edited),
];

/// Its pages are in use no more.
const UNPINNED: &[Row] = &[
    (Step::Unpin(1), Seen::Done),
    (Step::Unpin(4), Seen::Done),
    (Step::Unpin(3), Seen::Done),
];

/// The row's pages are written in order, and page 3 is given up.
const GIVEN_UP: &[Row] = &[
    (Step::Serve(3, Free), Seen::Write(1, CALLED)),
    (Step::Serve(3, Free), Seen::Write(4, CALLED)),
    (Step::Serve(3, Free), Seen::Write(3, CALLED)),
    (Step::Serve(3, Free), Seen::Lower(3, Free)),
    (Step::Serve(3, Free), Seen::Served),
    (Step::See(Held(3)), Seen::Level(Free)),
    (Step::See(Held(4)), Seen::Level(Ex)),
];

/// They are written in order, and page 3 is kept in PR.
const KEPT_IN_PR: &[Row] = &[
    (Step::Serve(3, Pr), Seen::Write(1, CALLED)),
    (Step::Serve(3, Pr), Seen::Write(4, CALLED)),
    (Step::Serve(3, Pr), Seen::Write(3, CALLED)),
    (Step::Serve(3, Pr), Seen::Lower(3, Pr)),
    (Step::Serve(3, Pr), Seen::Served),
    (Step::See(Held(3)), Seen::Level(Pr)),
    (Step::See(Held(4)), Seen::Level(Ex)),
];

/// Page 2 is held in EX and clean, and may be kept in PR.
const EX_TO_PR: &[Row] = &[
    (Step::Want(2, Ex), Seen::Lock(2, Ex)),
    (Step::Want(2, Ex), Seen::Read(2)),
    (Step::Want(2, Ex), Seen::Here),
    (Step::Serve(2, Pr), Seen::Lower(2, Pr)),
    (Step::Serve(2, Pr), Seen::Served),
    (Step::See(Held(2)), Seen::Level(Pr)),
];

/// It is held in EX and clean, and is given up.
const EX_TO_NONE: &[Row] = &[
    (Step::Want(2, Ex), Seen::Lock(2, Ex)),
    (Step::Want(2, Ex), Seen::Read(2)),
    (Step::Want(2, Ex), Seen::Here),
    (Step::Serve(2, Free), Seen::Lower(2, Free)),
    (Step::Serve(2, Free), Seen::Served),
    (Step::See(Held(2)), Seen::Level(Free)),
];

/// It is held in PR, and is given up.
const PR_TO_NONE: &[Row] = &[
    (Step::Want(2, Pr), Seen::Lock(2, Pr)),
    (Step::Want(2, Pr), Seen::Read(2)),
    (Step::Want(2, Pr), Seen::Here),
    (Step::Serve(2, Free), Seen::Lower(2, Free)),
    (Step::Serve(2, Free), Seen::Served),
    (Step::See(Held(2)), Seen::Level(Free)),
];

/// It is held in PR, which may be kept.
const PR_TO_PR: &[Row] = &[
    (Step::Want(2, Pr), Seen::Lock(2, Pr)),
    (Step::Want(2, Pr), Seen::Read(2)),
    (Step::Want(2, Pr), Seen::Here),
    (Step::Serve(2, Pr), Seen::Served),
    (Step::See(Held(2)), Seen::Level(Pr)),
];

/// Page 3 is in use when it is called back, and clean.
const IN_USE: &[Row] = &[
    (Step::Want(3, Ex), Seen::Lock(3, Ex)),
    (Step::Want(3, Ex), Seen::Read(3)),
    (Step::Want(3, Ex), Seen::Here),
    (Step::Pin(3), Seen::Done),
    (Step::Serve(3, Free), Seen::Later),
    (Step::Serve(3, Free), Seen::Later),
    (Step::Unpin(3), Seen::Done),
    (Step::Serve(3, Free), Seen::Lower(3, Free)),
    (Step::Serve(3, Free), Seen::Served),
];

/// Page 3 is in use when it is called back, behind the row.
const DIRTY_IN_USE: &[Row] = &[
    (Step::Want(3, Ex), Seen::Here),
    (Step::Pin(3), Seen::Done),
    (Step::Serve(3, Free), Seen::Later),
    (Step::Serve(3, Free), Seen::Later),
    (Step::Unpin(3), Seen::Done),
    (Step::Serve(3, Free), Seen::Write(1, CALLED)),
    (Step::Serve(3, Free), Seen::Write(4, CALLED)),
    (Step::Serve(3, Free), Seen::Write(3, CALLED)),
    (Step::Serve(3, Free), Seen::Lower(3, Free)),
    (Step::Serve(3, Free), Seen::Served),
];

/// Pages 11 and 12 are formatted after page 10.
const AFTER_ONE: &[Row] = &[
    (Step::Make(10), Seen::Lock(10, Ex)),
    (Step::Make(10), Seen::Here),
    (Step::Pin(10), Seen::Done),
    (Step::Edit(10, Change::Format(3, 1), &[]), Seen::Edited),
    (Step::Make(11), Seen::Lock(11, Ex)),
    (Step::Make(11), Seen::Here),
    (Step::Pin(11), Seen::Done),
    (Step::Edit(11, Change::Format(3, 1), &[10]), Seen::Edited),
    (Step::Make(12), Seen::Lock(12, Ex)),
    (Step::Make(12), Seen::Here),
    (Step::Pin(12), Seen::Done),
    (Step::Edit(12, Change::Format(3, 1), &[10]), Seen::Edited),
    (Step::Unpin(10), Seen::Done),
    (Step::Unpin(11), Seen::Done),
    (Step::Unpin(12), Seen::Done),
    (Step::Serve(12, Free), Seen::Write(10, CALLED)),
    (Step::Serve(12, Free), Seen::Write(12, CALLED)),
    (Step::Serve(12, Free), Seen::Lower(12, Free)),
    (Step::Serve(12, Free), Seen::Served),
    (Step::Serve(11, Free), Seen::Write(11, CALLED)),
    (Step::Serve(11, Free), Seen::Lower(11, Free)),
    (Step::Serve(11, Free), Seen::Served),
    (Step::Serve(10, Free), Seen::Lower(10, Free)),
    (Step::Serve(10, Free), Seen::Served),
];

/// Page 2 is waited for, and page 3 has no buffer.
const NOT_HELD: &[Row] = &[
    (Step::Queue(2, Ex), Seen::Lock(2, Ex)),
    (Step::Serve(2, Free), Seen::Served),
    (Step::Serve(2, Pr), Seen::Served),
    (Step::Serve(3, Free), Seen::Served),
    (Step::Serve(3, Pr), Seen::Served),
];

/// Each callback in a cache of its own.
const SCENES: &[Scene] = &[
    Scene {
        name: "a page is given up after the writes before it",
        buffers: 8,
        file: FRESH,
        tables: &[ROW, UNPINNED, GIVEN_UP],
    },
    Scene {
        name: "a page is kept in PR after the writes before it",
        buffers: 8,
        file: FRESH,
        tables: &[ROW, UNPINNED, KEPT_IN_PR],
    },
    Scene {
        name: "a clean page is lowered to PR at once",
        buffers: 8,
        file: FRESH,
        tables: &[EX_TO_PR],
    },
    Scene {
        name: "a clean page in EX is given up at once",
        buffers: 8,
        file: FRESH,
        tables: &[EX_TO_NONE],
    },
    Scene {
        name: "a clean page in PR is given up at once",
        buffers: 8,
        file: FRESH,
        tables: &[PR_TO_NONE],
    },
    Scene {
        name: "a page in PR stays in it",
        buffers: 8,
        file: FRESH,
        tables: &[PR_TO_PR],
    },
    Scene {
        name: "a clean page in use is served after that",
        buffers: 8,
        file: FRESH,
        tables: &[IN_USE],
    },
    Scene {
        name: "a dirty page in use is served after that",
        buffers: 8,
        file: FRESH,
        tables: &[ROW, DIRTY_IN_USE],
    },
    Scene {
        name: "a page that two others stand after is written once",
        buffers: 8,
        file: FRESH,
        tables: &[AFTER_ONE],
    },
    Scene {
        name: "a page that is not held is done",
        buffers: 8,
        file: FRESH,
        tables: &[NOT_HELD],
    },
];

#[test]
fn callbacks_are_served(rt: HostRuntime) -> Result<(), Fail> {
    play(&rt, rt.alloc(), SCENES)
}
