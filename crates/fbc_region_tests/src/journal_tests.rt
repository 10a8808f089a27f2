//! A format in a draft, and how it ends: by a write, by a failed write and by a death.

use crate::fixtures::page;
use crate::journals::{formatted, tell, tell_edit};
use fbc_journal_readers::{before, draft_owner};
use fbc_kinds::{Edit, Page};
use fbc_levels::Level;
use fbc_world::{Act, Cause, Journal, LocalEvent};
use std::alloc::AllocError;
use std::process::Abort;
use std::test::Fail;

/// What the journal tells of owner 1 and page 4: whether a page is kept, and the draft's owner.
fn check(
    rt: &impl Abort,
    journal: &Journal,
    kept: bool,
    owner: Option<u32>,
    alive: bool,
) -> Result<(), AllocError> {
    let content = journal.kept(4)?;
    assert_eq!(*rt; !matches!(&content, Page::Blank), kept);
    assert_eq!(*rt; draft_owner(journal, 4), owner);
    assert_eq!(*rt; journal.alive(1), alive);
    assert_eq!(*rt; journal.granted(1, page(4)), Level::Ex);
    assert_eq!(*rt; journal.granted(2, page(4)), Level::Free);
    Ok(())
}

#[test]
fn a_death_drops_the_draft(rt: HostRuntime) -> Result<(), Fail> {
    let mut journal = formatted(rt.alloc())?;
    check(&rt, &journal, false, Some(1), true)?;
    tell(&mut journal, 2, Act::Die)?;
    check(&rt, &journal, false, Some(1), true)?;
    assert!(rt; matches!(&journal.newest(4)?, Page::Data(_)));
    tell(&mut journal, 1, Act::Die)?;
    assert!(rt; matches!(&journal.newest(4)?, Page::Blank));
    check(&rt, &journal, false, None, false)?;
    assert_eq!(rt; journal.length(), 6);
    Ok(())
}

/// Whether the journal tells that the page `high` is written before `low`.
fn is_before(journal: &Journal, high: u32, low: u32) -> bool {
    before(journal, high, low)
}

#[test]
fn a_write_keeps_the_draft(rt: HostRuntime) -> Result<(), Fail> {
    for failed in [false, true] {
        let mut journal = formatted(rt.alloc())?;
        let before = LocalEvent::Before { high: 4, low: 0 };
        tell(&mut journal, 1, Act::Local(before))?;
        assert!(rt; is_before(&journal, 4, 0) && !is_before(&journal, 0, 4));
        // A data page of this shape has 45 cells, so this edit does not fit.
        tell_edit(&mut journal, 2, Edit::ClearCell { cell: 45 })?;
        check(&rt, &journal, false, Some(1), true)?;
        let write = Act::Write {
            page: 4,
            cause: Cause::Commit,
            failed,
        };
        tell(&mut journal, 1, write)?;
        check(&rt, &journal, !failed, None, !failed)?;
        assert!(rt; !is_before(&journal, 4, 0));
    }
    Ok(())
}
