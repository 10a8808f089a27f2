//! A format in a draft, seen with and without a cut, and edges that a cut is closed under or not.

use crate::journals::{formatted, tell};
use fbc_closed_cuts::{is_closed, view};
use fbc_kinds::{Edge, Flag, Page};
use fbc_world::Act;
use std::test::Fail;

/// Whether it is the empty data page 4 of relation 0 and sequence 0, which has 45 cells.
fn is_empty_data(page: &Page) -> bool {
    match page {
        Page::Data(data) => {
            data.page == 4
                && data.relation == 0
                && data.sequence == 0
                && data.cells.len() == 45
                && data
                    .cells
                    .items()
                    .iter()
                    .all(|cell| cell.flag == Flag::Empty)
        }
        _ => false,
    }
}

#[test]
fn a_cut_shows_a_draft_until_its_owner_dies(rt: HostRuntime) -> Result<(), Fail> {
    let mut journal = formatted(rt.alloc())?;
    assert!(rt; is_empty_data(&view(&journal, &[4], 4)?));
    assert!(rt; matches!(&view(&journal, &[], 4)?, Page::Blank));
    assert!(rt; matches!(&view(&journal, &[4], 5)?, Page::Blank));
    tell(&mut journal, 1, Act::Die)?;
    assert!(rt; matches!(&view(&journal, &[4], 4)?, Page::Blank));
    Ok(())
}

/// Page 1 is written before page 4, and that before page 3.
const EDGES: &[Edge] = &[Edge { high: 1, low: 4 }, Edge { high: 4, low: 3 }];

/// Cuts, and whether each is closed under those edges.
const CUTS: &[(&'static [u32], bool)] = &[
    (&[], true),
    (&[1], true),
    (&[4], false),
    (&[1, 4], true),
    (&[4, 3], false),
    (&[3, 1, 4], true),
];

#[test]
fn a_cut_is_closed_where_no_high_page_is_missing(rt: HostRuntime) {
    for (pages, closed) in CUTS {
        assert_eq!(rt; is_closed(pages, EDGES), *closed, "{pages:?}");
    }
}
