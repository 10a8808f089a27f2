//! Callbacks: whose lock is in somebody's way, and what it is asked to give up.

use crate::steps::On::Page;
use crate::steps::Step::{Ask, BlockedBy, Called, Die, Look};
use crate::steps::{Step, play};
use fbc_levels::Callback;
use fbc_levels::Level::{Ex, Free, Pr, Sr};
use fbc_lock_table::{Asked, Looked};
use std::test::Fail;

const WRITER: &[Step] = &[
    Ask(1, Page(3), Pr, Asked::Granted),
    Called(1, None, None),
    Ask(2, Page(3), Ex, Asked::Queued),
    Look(2, Looked::NotYet { holder: 1 }),
    Called(
        1,
        None,
        Some(Callback {
            page: 3,
            keep: Free,
            asker: 2,
        }),
    ),
    Called(2, None, None),
    Die(2),
    Called(1, None, None),
];

#[test]
fn a_reader_is_called_by_a_writer(rt: HostRuntime) -> Result<(), Fail> {
    Ok(play(&rt, rt.alloc(), 16, WRITER)?)
}

const PAGES: &[Step] = &[
    Ask(1, Page(9), Ex, Asked::Granted),
    Ask(1, Page(2), Ex, Asked::Granted),
    Ask(1, Page(7), Ex, Asked::Granted),
    Ask(5, Page(7), Pr, Asked::Queued),
    Ask(3, Page(9), Pr, Asked::Queued),
    Ask(4, Page(7), Sr, Asked::Queued),
    Ask(2, Page(9), Ex, Asked::Queued),
    Called(
        1,
        None,
        Some(Callback {
            page: 7,
            keep: Pr,
            asker: 5,
        }),
    ),
    Called(
        1,
        Some(7),
        Some(Callback {
            page: 9,
            keep: Free,
            asker: 3,
        }),
    ),
    Called(
        1,
        Some(8),
        Some(Callback {
            page: 9,
            keep: Free,
            asker: 3,
        }),
    ),
    Called(1, Some(9), None),
    BlockedBy(1, 7, Some(5)),
    BlockedBy(1, 2, None),
];

#[test]
fn the_least_page_past_the_last(rt: HostRuntime) -> Result<(), Fail> {
    Ok(play(&rt, rt.alloc(), 16, PAGES)?)
}
