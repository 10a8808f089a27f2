//! The lock table: who is granted what, who is named, and what room there is.

use crate::steps::On::{Page, Relation, Transaction};
use crate::steps::Step::{Ask, Die, Holds, Least, Look, Lower, TryAsk, Used, Withdraw};
use crate::steps::{Step, play};
use fbc_levels::Level::{Ex, Free, Null, Pr, Sr, Sw};
use fbc_levels::Series;
use fbc_lock_table::{Asked, Looked};
use std::test::Fail;

const ROOM: &[Step] = &[
    TryAsk(1, Page(1), Ex, Asked::Granted),
    TryAsk(2, Page(2), Pr, Asked::Granted),
    Ask(3, Page(1), Ex, Asked::Room { used: 2 }),
    Die(2),
    Ask(3, Page(1), Ex, Asked::Dead { owner: 2 }),
    Die(1),
    Ask(3, Page(2), Pr, Asked::Dead { owner: 1 }),
    Used(2),
];

#[test]
fn room_comes_before_a_conflict(rt: HostRuntime) -> Result<(), Fail> {
    Ok(play(&rt, rt.alloc(), 2, ROOM)?)
}

const RAISE: &[Step] = &[
    Ask(1, Relation(0), Sr, Asked::Granted),
    Ask(2, Relation(0), Sr, Asked::Granted),
    TryAsk(1, Relation(0), Sw, Asked::Granted),
    Holds(1, Relation(0), Sw),
    TryAsk(
        2,
        Relation(0),
        Pr,
        Asked::Busy {
            holder: 1,
            level: Sw,
        },
    ),
    Ask(2, Relation(0), Pr, Asked::Queued),
    Look(2, Looked::NotYet { holder: 1 }),
    Withdraw(2),
    Holds(2, Relation(0), Sr),
    Look(2, Looked::Granted),
    Used(2),
];

#[test]
fn a_level_is_raised_in_place(rt: HostRuntime) -> Result<(), Fail> {
    Ok(play(&rt, rt.alloc(), 2, RAISE)?)
}

const HOLDERS: &[Step] = &[
    Ask(3, Page(7), Pr, Asked::Granted),
    Ask(1, Page(7), Pr, Asked::Granted),
    Ask(2, Page(7), Pr, Asked::Granted),
    Ask(4, Page(7), Ex, Asked::Queued),
    Look(4, Looked::NotYet { holder: 1 }),
    Lower(1, Page(7), Free),
    Look(4, Looked::NotYet { holder: 2 }),
    Die(2),
    Look(4, Looked::Dead { owner: 2 }),
    TryAsk(5, Page(7), Ex, Asked::Dead { owner: 2 }),
    Lower(3, Page(7), Null),
    Withdraw(4),
    Used(2),
];

#[test]
fn the_least_holder_is_named(rt: HostRuntime) -> Result<(), Fail> {
    Ok(play(&rt, rt.alloc(), 16, HOLDERS)?)
}

const WORDS: &[Step] = &[
    Least(Series::Transaction, None),
    Ask(4, Transaction(4), Ex, Asked::Granted),
    Ask(2, Transaction(2), Ex, Asked::Granted),
    Ask(3, Transaction(3), Ex, Asked::Granted),
    Ask(4, Transaction(1), Sr, Asked::Granted),
    Least(Series::Transaction, Some(20)),
    Die(2),
    Least(Series::Transaction, Some(30)),
    Least(Series::Page, None),
];

#[test]
fn the_least_word_of_the_living(rt: HostRuntime) -> Result<(), Fail> {
    Ok(play(&rt, rt.alloc(), 16, WORDS)?)
}
