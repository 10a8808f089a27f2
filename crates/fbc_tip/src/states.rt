//! The state of a number, as its transaction inventory page shows it.

ghost use Rattle.std.specs.Prelude.{◌≡◌};
ghost use Rattle.fbc_tip.specs.declared.states.StatePart.TheVariants as parts;
ghost use Rattle.fbc_desk.specs.Calls.{GoesOn};
ghost use Rattle.fbc_desk.specs.Holds.{after_looking};
ghost use Rattle.fbc_tip.specs.Inventories.{reading};
ghost use Rattle.fbc_tip.specs.States.{FindsTip, GoesFrom, StateComesTo, after_looks, header_look, last_look};

use crate::inventories::{reading, tip_place};
use fbc_cache::{Need, Place};
use fbc_desk::{Desk, Held};
use fbc_kinds::{Rule, State};

/// How far the search for a state has come.
#[derive(Clone, Copy, Debug, PartialEq, Eq)]
pub enum StatePart {
    /// The header is to be looked at.
    Header,
    /// This page, which the header named for the number, is to be looked at.
    Tip { page: u32 },
}

/// What the search for a state comes to.
#[derive(Clone, Copy, Debug, PartialEq, Eq)]
pub enum StateStep {
    /// This is the state.
    Done(State),
    /// This page is to be got first.
    Miss(Need),
    /// The header names no page for the number.
    Unknown,
    /// The page breaks the rule.
    Damaged { page: u32, rule: Rule },
}

/// The state of the number: first the header is looked at, which names the page of the number, and then that page. Each
/// is looked at once, also over several calls with one part.
pub fn try_state(part: &mut StatePart, desk: &mut Desk, number: u32) -> StateStep
    ensures step { StateComesTo desk.new part.new number result }
    ensures found { GoesFrom desk.new number part.old part.new }
    ensures after { desk.new ≡ after_looks desk.old part.old part.new result }
    ensures goes { GoesOn desk.old desk.new }
{
    match *part {
        StatePart::Tip { page } => look_state(desk, page, number),
        StatePart::Header => match find_tip(desk, number) {
            Ok(page) => {
                *part = StatePart::Tip { page };
                look_state(desk, page, number)
            }
            Err(step) => step,
        },
    }
}

/// The page that the header names for the number; or what the search comes to before.
fn find_tip(desk: &mut Desk, number: u32) -> Result<u32, StateStep>
    ensures finds { FindsTip desk.new number result }
    ensures after { desk.new ≡ after_looking desk.old (reading 0) (header_look result) }
    ensures goes { GoesOn desk.old desk.new }
{
    let header = Place {
        kind: 1,
        relation: 0,
        sequence: 0,
    };
    match desk.look_as(reading(0), header) {
        Held::Here => {}
        Held::Miss(need) => return Err(StateStep::Miss(need)),
        Held::Damaged { page, rule } => return Err(StateStep::Damaged { page, rule }),
    }
    let sequence = number / desk.tip_numbers();
    if sequence < desk.cache().tip_count() as u32 {
        Ok(desk.cache().tip_page(sequence))
    } else {
        Err(StateStep::Unknown)
    }
}

/// The state that the page of the number shows.
fn look_state(desk: &mut Desk, page: u32, number: u32) -> StateStep
    ensures step { StateComesTo desk.new (parts.Tip page) number result }
    ensures after { desk.new ≡ after_looking desk.old (reading page) (last_look result) }
    ensures goes { GoesOn desk.old desk.new }
{
    let sequence = number / desk.tip_numbers();
    match desk.look_as(reading(page), tip_place(sequence)) {
        Held::Here => StateStep::Done(desk.cache().state(page, number)),
        Held::Miss(need) => StateStep::Miss(need),
        Held::Damaged { page, rule } => StateStep::Damaged { page, rule },
    }
}
