//! Damage in pages that are read: every rule that the bytes of one page can break.

use crate::driver::{Scene, cache_of, need, play, want};
use crate::steps::Question::{HasValue, Place, Slot, Version};
use crate::steps::{Row, Seen, Step};
use fbc_kinds::{Flag, Rule};
use fbc_levels::Level::Pr;
use fbc_samples::{ONE_ROW, Part, page_of};
use std::test::Fail;

/// A page, the page of the file whose bytes are read for it, the changes of them, and the first rule that they then
/// break.
type Case = (u32, u32, &'static [Part], Rule);

/// A case for each rule, at least.
const CASES: &[Case] = &[
    // Heads of pages.
    (1, 0, &[], Rule::Kind),
    (5, 5, &[(0, &[6])], Rule::Kind),
    (5, 5, &[(1023, &[1])], Rule::Kind),
    (0, 0, &[(1, &[2])], Rule::Head),
    (2, 2, &[(12, &[1])], Rule::Head),
    (0, 0, &[(4, &[1])], Rule::Number),
    (5, 4, &[], Rule::Number),
    // The header.
    (0, 0, &[(16, &[0])], Rule::Magic),
    (0, 0, &[(25, &[8])], Rule::Size),
    (0, 0, &[(28, &[2])], Rule::Version),
    (0, 0, &[(32, &[0])], Rule::Next),
    (0, 0, &[(36, &[9])], Rule::Count),
    (0, 0, &[(49, &[0x54])], Rule::Name),
    (0, 0, &[(64, &[201])], Rule::Value),
    (0, 0, &[(68, &[0])], Rule::Pointers),
    (0, 0, &[(336, &[0])], Rule::Tips),
    (0, 0, &[(44, &[1])], Rule::Oldest),
    (0, 0, &[(400, &[1])], Rule::Rest),
    // The other kinds.
    (1, 1, &[(16, &[0x1e])], Rule::Bits),
    (2, 2, &[(16, &[3])], Rule::Zero),
    (2, 2, &[(16, &[4])], Rule::State),
    (3, 3, &[(2, &[8])], Rule::Relation),
    (4, 4, &[(2, &[8])], Rule::Relation),
    (4, 4, &[(16, &[4])], Rule::Flag),
    (4, 4, &[(17, &[11])], Rule::Cell),
    (4, 4, &[(1023, &[1])], Rule::Rest),
];

#[test]
fn damage_names_the_page_and_the_first_rule(rt: HostRuntime) -> Result<(), Fail> {
    for (page, stands, changes, rule) in CASES {
        let mut cache = cache_of(&rt, rt.alloc(), 3)?;
        let bytes = page_of(ONE_ROW, *stands, changes);
        let locked = want(&rt, &mut cache, need(*page, Pr), &bytes)?;
        assert_eq!(rt; locked, Seen::Lock(*page, Pr));
        let damaged = want(&rt, &mut cache, need(*page, Pr), &bytes)?;
        assert_eq!(rt; damaged, Seen::Damaged(*page, *rule));
        assert!(rt; !cache.has_copy(*page));
    }
    Ok(())
}

/// Pages that break no rule, one of each kind.
const WHOLE: &[Row] = &[
    (Step::Want(0, Pr), Seen::Lock(0, Pr)),
    (Step::Want(0, Pr), Seen::Read(0)),
    (Step::Want(0, Pr), Seen::Here),
    (Step::Want(1, Pr), Seen::Lock(1, Pr)),
    (Step::Want(1, Pr), Seen::Read(1)),
    (Step::Want(1, Pr), Seen::Here),
    (Step::Want(2, Pr), Seen::Lock(2, Pr)),
    (Step::Want(2, Pr), Seen::Read(2)),
    (Step::Want(2, Pr), Seen::Here),
    (Step::Want(3, Pr), Seen::Lock(3, Pr)),
    (Step::Want(3, Pr), Seen::Read(3)),
    (Step::Want(3, Pr), Seen::Here),
    (Step::Want(4, Pr), Seen::Lock(4, Pr)),
    (Step::Want(4, Pr), Seen::Read(4)),
    (Step::Want(4, Pr), Seen::Here),
    (Step::Want(5, Pr), Seen::Lock(5, Pr)),
    (Step::Want(5, Pr), Seen::Read(5)),
    (Step::Want(5, Pr), Seen::Here),
    (Step::See(Place(0)), Seen::Place(1, 0)),
    (Step::See(Place(1)), Seen::Place(2, 0)),
    (Step::See(Place(2)), Seen::Place(3, 0)),
    (Step::See(Place(3)), Seen::Place(4, 0)),
    (Step::See(Place(4)), Seen::Place(5, 0)),
    (Step::See(Place(5)), Seen::Place(0, 0)),
    (Step::See(Slot(3, 0)), Seen::Number(4)),
    (
        Step::See(Version(4, 0)),
        Seen::Version(Flag::Primary, 1, 0, 0, 1),
    ),
    (Step::See(HasValue(4, 0, b"x----")), Seen::Is(true)),
];

const SCENES: &[Scene] = &[Scene {
    name: "whole pages come into use",
    buffers: 6,
    file: ONE_ROW,
    tables: &[WHOLE],
}];

#[test]
fn pages_that_break_no_rule_come_into_use(rt: HostRuntime) -> Result<(), Fail> {
    play(&rt, rt.alloc(), SCENES)
}
