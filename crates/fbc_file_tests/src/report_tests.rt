//! The two reports, of sound, damaged and lost space.

use fbc_kinds::{Listed, Rule};
use fbc_report::{json, text};
use fbc_validator::Findings;
use std::alloc::{AllocError, Global};
use std::process::Abort;

/// What was found: the length in pages, damages, lost pages and lost cells.
fn findings(
    alloc: Global,
    pages: u32,
    damages: &[(u32, Rule)],
    lost_pages: &[u32],
    lost_cells: &[(u32, u16)],
) -> Result<Findings, AllocError> {
    Ok(Findings {
        pages,
        damages: Listed::new(Vec::from_slice(alloc, damages)?),
        lost_pages: Listed::new(Vec::from_slice(alloc, lost_pages)?),
        lost_cells: Listed::new(Vec::from_slice(alloc, lost_cells)?),
    })
}

/// Asserts both reports of what was found.
fn check(
    rt: &impl Abort,
    alloc: Global,
    found: &Findings,
    lines: &[u8],
    value: &[u8],
) -> Result<(), AllocError> {
    let written = text(alloc, found)?;
    assert!(rt; written.as_slice() == lines);
    let written = json(alloc, found)?;
    assert!(rt; written.as_slice() == value);
    Ok(())
}

#[test]
fn a_lost_cell(rt: HostRuntime) -> Result<(), AllocError> {
    let found = findings(rt.alloc(), 6, &[], &[], &[(5, 1)])?;
    check(
        &rt,
        rt.alloc(),
        &found,
        b"pages 6\nlost cell 5 1\nsound\n",
        b"{\"damages\":[],\"lost_cells\":[[5,1]],\"lost_pages\":[],\"pages\":6,\"sound\":true}\n",
    )
}

#[test]
fn a_page_cut_off(rt: HostRuntime) -> Result<(), AllocError> {
    let found = findings(rt.alloc(), 4, &[(4, Rule::Kind)], &[], &[])?;
    check(
        &rt,
        rt.alloc(),
        &found,
        b"pages 4\ndamaged 4 kind\ndamaged\n",
        b"{\"damages\":[[4,\"kind\"]],\"lost_cells\":[],\"lost_pages\":[],\"pages\":4,\"sound\":false}\n",
    )
}

#[test]
fn several_of_each(rt: HostRuntime) -> Result<(), AllocError> {
    let lost = findings(rt.alloc(), 9, &[], &[7, 8000], &[(4, 0), (4, 3)])?;
    check(
        &rt,
        rt.alloc(),
        &lost,
        b"pages 9\nlost page 7\nlost page 8000\nlost cell 4 0\nlost cell 4 3\nsound\n",
        b"{\"damages\":[],\"lost_cells\":[[4,0],[4,3]],\"lost_pages\":[7,8000],\"pages\":9,\"sound\":true}\n",
    )?;
    let damaged = findings(
        rt.alloc(),
        5,
        &[(2, Rule::Future), (4, Rule::Twice)],
        &[],
        &[],
    )?;
    check(
        &rt,
        rt.alloc(),
        &damaged,
        b"pages 5\ndamaged 2 future\ndamaged 4 twice\ndamaged\n",
        b"{\"damages\":[[2,\"future\"],[4,\"twice\"]],\"lost_cells\":[],\"lost_pages\":[],\"pages\":5,\"sound\":false}\n",
    )
}
