//! The slot that names the data page of a row.
#![tactic(auto, using(fbc_desk::proofs::Goes::goes_on))]

ghost use Rattle.std.specs.Prelude.{◌≡◌, ℕ, true};
ghost use Rattle.fbc_desk.specs.Calls.{GoesOn};
ghost use Rattle.fbc_chains.specs.Showing.{shown_by};
ghost use Rattle.fbc_chains.specs.Slots.{LooksAtSlot, SlotComesTo};
ghost use Rattle.fbc_chains.specs.Using.{IsUsed};

use crate::pages::look_at;
use crate::places::RowPlace;
use fbc_cache::{Need, Place};
use fbc_desk::{Desk, Held};
use fbc_kinds::Rule;

/// What a slot comes to.
#[derive(Clone, Copy, Debug, PartialEq, Eq)]
pub(crate) enum SlotStep {
    /// It names this page, 0 where it names none.
    Names { page: u32 },
    /// Its pointer page is to be got first.
    Miss(Need),
    /// Its pointer page breaks the rule.
    Damaged { page: u32, rule: Rule },
}

/// Looks at the slot that names the data page of a row. Past the pointer pages that are known there is no look, and it names
/// none.
pub(crate) fn look_at_slot(desk: &mut Desk, at: RowPlace) -> SlotStep
    ensures slot { LooksAtSlot (shown_by desk.old.cache) at result }
    ensures kept { (other : ℕ) → IsUsed desk.new other → IsUsed desk.old other }
    ensures same { shown_by desk.new.cache ≡ shown_by desk.old.cache }
    ensures goes { GoesOn desk.old desk.new }
{
    let known = desk.cache().pointer_count(at.relation) as u32;
    if at.sequence / desk.slots() >= known {
        return SlotStep::Names { page: 0 };
    }
    look_at_known(desk, at)
}

/// Looks at the slot on its pointer page, which is known.
fn look_at_known(desk: &mut Desk, at: RowPlace) -> SlotStep
    ensures slot { SlotComesTo true (shown_by desk.old.cache) at result }
    ensures kept { (other : ℕ) → IsUsed desk.new other → IsUsed desk.old other }
    ensures same { shown_by desk.new.cache ≡ shown_by desk.old.cache }
    ensures goes { GoesOn desk.old desk.new }
{
    let slots = desk.slots();
    let sequence = at.sequence / slots;
    let pointer = desk.cache().pointer_page(at.relation, sequence);
    let due = Place {
        kind: 4,
        relation: at.relation,
        sequence,
    };
    match look_at(desk, pointer, due) {
        Held::Here => SlotStep::Names {
            page: desk.cache().slot(pointer, at.sequence % slots),
        },
        Held::Miss(need) => SlotStep::Miss(need),
        Held::Damaged { page, rule } => SlotStep::Damaged { page, rule },
    }
}
