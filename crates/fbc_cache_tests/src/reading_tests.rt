//! What a cache hands out: the shape, the bytes of its pages, what stands in their cells, and its pages in rising
//! order.

use crate::driver::{Scene, play};
use crate::steps::Question::{
    FirstEmpty, HasCopy, HasValue, IsPinned, IsSpelled, NextHeld, NextPinned, Shape, Version,
    Victim, Waits,
};
use crate::steps::{Row, Seen, Step};
use fbc_kinds::Flag;
use fbc_levels::Level::Pr;
use fbc_samples::{ONE_ROW, Part};
use std::test::Fail;

/// The header is read.
const SPELLED: &[Row] = &[
    (Step::See(Shape), Seen::Shape(1024, 1, 100)),
    (Step::See(HasCopy(0)), Seen::Is(false)),
    (Step::Want(0, Pr), Seen::Lock(0, Pr)),
    (Step::Want(0, Pr), Seen::Read(0)),
    (Step::Want(0, Pr), Seen::Here),
    (Step::See(HasCopy(0)), Seen::Is(true)),
    (Step::See(IsSpelled(0)), Seen::Is(true)),
];

/// Page 4, a data page of the relation: the newest version of a row, before it the one in cell 1 of page 9; a last
/// version; an empty cell; and a deletion.
const CELLS: &[Part] = &[
    (4096, &[5, 1, 0, 0, 4]),
    (4112, &[1, 3, 1, 0, 7, 0, 0, 0, 9]),
    (4124, b"abc"),
    (4134, &[3, 1, 0, 0, 5]),
    (4146, b"x"),
    (4178, &[2, 0, 0, 0, 6, 0, 0, 0, 8]),
];

/// Its cells are read, field by field.
const VERSIONS: &[Row] = &[
    (Step::See(FirstEmpty(4)), Seen::Cell(None)),
    (Step::Want(4, Pr), Seen::Lock(4, Pr)),
    (Step::Want(4, Pr), Seen::Read(4)),
    (Step::Want(4, Pr), Seen::Here),
    (
        Step::See(Version(4, 0)),
        Seen::Version(Flag::Primary, 7, 9, 1, 3),
    ),
    (
        Step::See(Version(4, 1)),
        Seen::Version(Flag::Back, 5, 0, 0, 1),
    ),
    (
        Step::See(Version(4, 2)),
        Seen::Version(Flag::Empty, 0, 0, 0, 0),
    ),
    (
        Step::See(Version(4, 3)),
        Seen::Version(Flag::Deletion, 6, 8, 0, 0),
    ),
    (Step::See(HasValue(4, 0, b"abc--")), Seen::Is(true)),
    (Step::See(FirstEmpty(4)), Seen::Cell(Some(2))),
];

/// Pages 30, 10 and 20 are read, and the first two used.
const RISING: &[Row] = &[
    (Step::Want(30, Pr), Seen::Lock(30, Pr)),
    (Step::Want(30, Pr), Seen::Read(30)),
    (Step::Want(30, Pr), Seen::Here),
    (Step::Want(10, Pr), Seen::Lock(10, Pr)),
    (Step::Want(10, Pr), Seen::Read(10)),
    (Step::Want(10, Pr), Seen::Here),
    (Step::Want(20, Pr), Seen::Lock(20, Pr)),
    (Step::Want(20, Pr), Seen::Read(20)),
    (Step::Want(20, Pr), Seen::Here),
    (Step::Pin(30), Seen::Done),
    (Step::Pin(10), Seen::Done),
    (Step::See(NextPinned(None)), Seen::Page(Some(10))),
    (Step::See(NextPinned(Some(10))), Seen::Page(Some(30))),
    (Step::See(NextPinned(Some(30))), Seen::Page(None)),
    (Step::See(NextHeld(None)), Seen::Page(Some(10))),
    (Step::See(NextHeld(Some(10))), Seen::Page(Some(20))),
    (Step::See(NextHeld(Some(20))), Seen::Page(Some(30))),
    (Step::See(NextHeld(Some(30))), Seen::Page(None)),
];

/// Page 10 is waited for, and then granted.
const WAITED: &[Row] = &[
    (Step::See(Waits), Seen::Is(false)),
    (Step::Queue(10, Pr), Seen::Lock(10, Pr)),
    (Step::See(Waits), Seen::Is(true)),
    (Step::See(NextHeld(None)), Seen::Page(None)),
    (Step::Look, Seen::Look),
    (Step::See(Waits), Seen::Is(false)),
    (Step::See(NextHeld(None)), Seen::Page(Some(10))),
];

/// Page 10 is used without a pin, and page 13, which has no buffer.
const TOUCHED: &[Row] = &[
    (Step::Want(10, Pr), Seen::Lock(10, Pr)),
    (Step::Want(10, Pr), Seen::Read(10)),
    (Step::Want(10, Pr), Seen::Here),
    (Step::Want(11, Pr), Seen::Lock(11, Pr)),
    (Step::Want(11, Pr), Seen::Read(11)),
    (Step::Want(11, Pr), Seen::Here),
    (Step::Want(12, Pr), Seen::Lock(12, Pr)),
    (Step::Want(12, Pr), Seen::Read(12)),
    (Step::Want(12, Pr), Seen::Here),
    (Step::See(Victim), Seen::Page(Some(10))),
    (Step::Touch(10), Seen::Done),
    (Step::See(Victim), Seen::Page(Some(11))),
    (Step::See(IsPinned(10)), Seen::Is(false)),
    (Step::Touch(13), Seen::Done),
    (Step::See(Victim), Seen::Page(Some(11))),
];

/// What is read in each cache.
const SCENES: &[Scene] = &[
    Scene {
        name: "a page is spelled as it was read",
        buffers: 3,
        file: ONE_ROW,
        tables: &[SPELLED],
    },
    Scene {
        name: "versions are read field by field",
        buffers: 3,
        file: CELLS,
        tables: &[VERSIONS],
    },
    Scene {
        name: "pages come in rising order",
        buffers: 4,
        file: &[],
        tables: &[RISING],
    },
    Scene {
        name: "a page that is waited for is not held",
        buffers: 3,
        file: &[],
        tables: &[WAITED],
    },
    Scene {
        name: "a page that is used without a pin gives way last",
        buffers: 3,
        file: &[],
        tables: &[TOUCHED],
    },
];

#[test]
fn readers_answer(rt: HostRuntime) -> Result<(), Fail> {
    play(&rt, rt.alloc(), SCENES)
}
