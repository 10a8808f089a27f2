//! What slots of pointer pages name.

ghost use Rattle.std.specs.Prelude.{◌≡◌};
ghost use Rattle.fbc_cache.specs.Least.{IsLeast};
ghost use Rattle.fbc_desk.specs.Calls.{GoesOn};
ghost use Rattle.fbc_chains.specs.Showing.{shown_by};
ghost use Rattle.fbc_chains.specs.Slots.{named_at};
ghost use Rattle.fbc_rows.specs.Damages.{SlotDamages};
ghost use Rattle.fbc_rows.specs.Missing.{SlotMisses};
ghost use Rattle.fbc_rows.specs.Slots.{LooksAtSlot, data_at, is_unnamed};

use crate::needs::{look_at_pointer, pointer_at};
use fbc_cache::{Cache, Need};
use fbc_desk::{Desk, Held};
use fbc_kinds::Rule;

/// What a slot comes to.
#[derive(Clone, Copy, Debug, PartialEq, Eq)]
pub(crate) enum SlotStep {
    /// It names this page, 0 where it names none.
    Names { page: u32 },
    /// Its pointer page is to be got first.
    Miss(Need),
    /// Its pointer page breaks the rule.
    Damaged { page: u32, rule: Rule },
}

/// Looks at the slot of the sequence.
pub(crate) fn look_at_slot(desk: &mut Desk, relation: u8, sequence: u32) -> SlotStep
    ensures slot { LooksAtSlot (shown_by desk.old.cache) relation sequence result }
    ensures same { shown_by desk.new.cache ≡ shown_by desk.old.cache }
    ensures misses { SlotMisses desk.new result }
    ensures damages { SlotDamages desk.new relation result }
    ensures goes { GoesOn desk.old desk.new }
{
    let pointer = sequence / desk.slots();
    match look_at_pointer(desk, relation, pointer) {
        Held::Here => SlotStep::Names {
            page: slot_of(desk, relation, sequence),
        },
        Held::Miss(need) => SlotStep::Miss(need),
        Held::Damaged { page, rule } => SlotStep::Damaged { page, rule },
    }
}

/// What the slot of the sequence names, as its pointer page shows it.
pub(crate) fn slot_of(desk: &Desk, relation: u8, sequence: u32) -> u32
    ensures { result ≡ named_at (shown_by desk.now.cache) (data_at relation sequence) }
{
    let slots = desk.slots();
    let pointer = pointer_at(desk, relation, sequence / slots);
    desk.cache().slot(pointer, sequence % slots)
}

/// The first slot of the pointer page, of so many, that names no page.
pub(crate) fn first_unnamed(cache: &Cache, pointer: u32, slots: u32) -> Option<u32>
    ensures { IsLeast (is_unnamed (shown_by cache.now) pointer slots) result }
{
    for slot in 0..slots {
        if cache.slot(pointer, slot) == 0 {
            return Some(slot);
        }
    }
    None
}
