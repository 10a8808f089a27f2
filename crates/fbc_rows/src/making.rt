//! A free page becomes a data page of the relation, and is named.
#![tactic(auto, using(fbc_desk::proofs::Goes::goes_on))]

ghost use Rattle.std.specs.Prelude.{◌≡◌, ℕ, IfOk, IfSome, OnErr};
ghost use Rattle.fbc_space.specs.FreeSteps.{HoldsFree};
ghost use Rattle.fbc_chains.specs.Showing.{shown_by};
ghost use Rattle.fbc_rows.specs.declared.parts.RowStep.TheVariants as steps;
ghost use Rattle.fbc_rows.specs.declared.parts.Stage.TheVariants as stages;
ghost use Rattle.fbc_rows.specs.Gathered.{FreeComesTo, PointerComesTo, SlotComesTo};
ghost use Rattle.fbc_rows.specs.Parts.{standing};
ghost use Rattle.fbc_rows.specs.Damages.{Damages, FreeDamages};
ghost use Rattle.fbc_rows.specs.Making.{NameComesTo, NamesPage, TakeComesTo, TakeWants};
ghost use Rattle.fbc_rows.specs.Missing.{FreeMisses, Misses};
ghost use Rattle.fbc_rows.specs.Inserting.{IsBetween, Leaves};
ghost use Rattle.fbc_cache.specs.Giving.{IsWriteFor};
ghost use Rattle.fbc_desk.specs.Calls.{GoesOn};
ghost use Rattle.fbc_world.specs.declared.asks.Cause.TheVariants as causes;
ghost use Rattle.fbc_rows.specs.Writes.{Writes};

use crate::needs::{hold_pointer, leave_all, pointer_at};
use crate::parts::{InsertPart, NewPage, RowStep, Stage};
use crate::searching::note_named;
use crate::slots::slot_of;
use fbc_desk::{Desk, Held, Made};
use fbc_kinds::Edit;
use fbc_space::{FreeStep, TakeStep, Taking, hold_free, try_take};
use fbc_world::{Ask, Cause};
use std::alloc::AllocError;

/// Uses the pointer page with the slot. Where the slot names a page by now, the part begins again.
pub(crate) fn use_pointer(
    part: &mut InsertPart,
    desk: &mut Desk,
    relation: u8,
    new: NewPage,
) -> Option<RowStep>
    ensures comes { PointerComesTo desk.old relation new part.old part.new result }
    ensures same { shown_by desk.new.cache ≡ shown_by desk.old.cache }
    ensures between { IfSome result IsBetween }
    ensures leaves { IfSome result (Leaves desk.new part.new) }
    ensures misses { IfSome result (Misses desk.new) }
    ensures writes { IfSome result (Writes desk.new) }
    ensures damages { IfSome result (Damages desk.new relation) }
    ensures goes { GoesOn desk.old desk.new }
{
    let pointer = new.sequence / desk.slots();
    match hold_pointer(desk, relation, pointer) {
        Held::Here => go_on_if_empty(part, desk, relation, new),
        Held::Miss(need) => Some(RowStep::Miss(need)),
        Held::Damaged { page, rule } => Some(RowStep::Damaged { page, rule }),
    }
}

/// Goes on where the slot names no page.
fn go_on_if_empty(
    part: &mut InsertPart,
    desk: &mut Desk,
    relation: u8,
    new: NewPage,
) -> Option<RowStep>
    ensures comes { SlotComesTo (shown_by desk.old.cache) relation new part.old part.new result }
    ensures same { shown_by desk.new.cache ≡ shown_by desk.old.cache }
    ensures between { IfSome result IsBetween }
    ensures leaves { IfSome result (Leaves desk.new part.new) }
    ensures misses { IfSome result (Misses desk.new) }
    ensures writes { IfSome result (Writes desk.new) }
    ensures damages { IfSome result (Damages desk.new relation) }
    ensures goes { GoesOn desk.old desk.new }
{
    if slot_of(desk, relation, new.sequence) != 0 {
        return Some(begin_again(part, desk));
    }
    part.stage = Stage::Free { new };
    None
}

/// Everything is unpinned, and the part begins again.
fn begin_again(part: &mut InsertPart, desk: &mut Desk) -> RowStep
    ensures again { result ≡ steps.Again }
    ensures after { part.new ≡ standing stages.Slot part.old }
    ensures same { shown_by desk.new.cache ≡ shown_by desk.old.cache }
    ensures between { IsBetween result }
    ensures leaves { Leaves desk.new part.new result }
    ensures misses { Misses desk.new result }
    ensures writes { Writes desk.new result }
    ensures damages { (relation : ℕ) → Damages desk.new relation result }
    ensures goes { GoesOn desk.old desk.new }
{
    part.begin_again();
    leave_all(desk);
    RowStep::Again
}

/// Uses the free page, with the page inventory over it. Where it is not free by now, the part begins again.
pub(crate) fn use_page(part: &mut InsertPart, desk: &mut Desk, new: NewPage) -> Option<RowStep>
    ensures comes { FreeComesTo desk.old new part.old part.new result }
    ensures same { shown_by desk.new.cache ≡ shown_by desk.old.cache }
    ensures between { IfSome result IsBetween }
    ensures leaves { IfSome result (Leaves desk.new part.new) }
    ensures misses { IfSome result (Misses desk.new) }
    ensures writes { IfSome result (Writes desk.new) }
    ensures damages { (relation : ℕ) → IfSome result (Damages desk.new relation) }
    ensures goes { GoesOn desk.old desk.new }
{
    match hold_page(desk, new.page) {
        FreeStep::Here => {
            part.stage = Stage::Take {
                new,
                taking: Taking::Free,
            };
            None
        }
        FreeStep::Miss(need) => Some(RowStep::Miss(need)),
        FreeStep::Gone => Some(begin_again(part, desk)),
        FreeStep::Damaged { page, rule } => Some(RowStep::Damaged { page, rule }),
    }
}

/// Uses the free page, with the page inventory over it.
fn hold_page(desk: &mut Desk, page: u32) -> FreeStep
    ensures held { HoldsFree desk.old page result desk.new }
    ensures same { shown_by desk.new.cache ≡ shown_by desk.old.cache }
    ensures misses { FreeMisses desk.new result }
    ensures damages { (relation : ℕ) → FreeDamages desk.new relation result }
    ensures goes { GoesOn desk.old desk.new }
{
    hold_free(desk, page)
}

/// Makes a data page of the free page, from where that stands.
pub(crate) fn take_page(
    part: &mut InsertPart,
    desk: &mut Desk,
    relation: u8,
    new: NewPage,
    from: Taking,
) -> Result<Option<RowStep>, AllocError>
    ensures comes { IfOk result (TakeComesTo desk.old desk.new relation new from part.old part.new) }
    ensures between { IfOk result (λ done. IfSome done IsBetween) }
    ensures leaves { IfOk result (λ done. IfSome done (Leaves desk.new part.new)) }
    ensures misses { IfOk result (λ done. IfSome done (Misses desk.new)) }
    ensures writes { IfOk result (λ done. IfSome done (Writes desk.new)) }
    ensures damages { IfOk result (λ done. IfSome done (Damages desk.new relation)) }
    ensures goes { GoesOn desk.old desk.new }
    ensures err { OnErr result (TakeWants desk.old desk.new relation new from part.old part.new) }
{
    let mut taking = from;
    let taken = try_take(&mut taking, desk, new.page, relation, new.sequence);
    part.stage = Stage::Take { new, taking };
    match taken? {
        TakeStep::Done => {
            part.stage = Stage::Name { new };
            Ok(None)
        }
        TakeStep::Must(ask) => Ok(Some(RowStep::Must(ask))),
        TakeStep::Refused => Ok(Some(RowStep::Refused)),
    }
}

/// The slot names the data page, in whose first cell the row is put.
pub(crate) fn name_page(
    part: &mut InsertPart,
    desk: &mut Desk,
    relation: u8,
    new: NewPage,
) -> Result<Option<RowStep>, AllocError>
    ensures comes { IfOk result (NamesPage desk.old desk.new relation new part.old part.new) }
    ensures between { IfOk result (λ done. IfSome done IsBetween) }
    ensures leaves { IfOk result (λ done. IfSome done (Leaves desk.new part.new)) }
    ensures misses { IfOk result (λ done. IfSome done (Misses desk.new)) }
    ensures writes { IfOk result (λ done. IfSome done (Writes desk.new)) }
    ensures damages { IfOk result (λ done. IfSome done (Damages desk.new relation)) }
    ensures goes { GoesOn desk.old desk.new }
    ensures err { OnErr result ((desk.new ≡ desk.old) × (part.new ≡ part.old)) }
{
    match name(desk, relation, new)? {
        Made::Done => {
            note_named(desk, relation, new.sequence, new.page);
            part.stage = Stage::Put {
                page: new.page,
                sequence: new.sequence,
                cell: 0,
            };
            Ok(None)
        }
        Made::WriteFirst { page, high } => Ok(Some(RowStep::Must(write_first(desk, page, high)))),
        Made::Refused => Ok(Some(RowStep::Refused)),
    }
}

/// The edit by which the slot names the data page, which is written first.
fn name(desk: &mut Desk, relation: u8, new: NewPage) -> Result<Made, AllocError>
    ensures made { IfOk result (NameComesTo desk.old relation new desk.new) }
    ensures goes { GoesOn desk.old desk.new }
    ensures err { OnErr result (desk.new ≡ desk.old) }
{
    let slots = desk.slots();
    let pointer = pointer_at(desk, relation, new.sequence / slots);
    let edit = Edit::Name {
        slot: new.sequence % slots,
        page: new.page,
    };
    desk.edit(pointer, edit, &[new.page])
}

/// The next write in order before an edit of a page that is to be written before the high page.
pub(crate) fn write_first(desk: &Desk, edited: u32, high: u32) -> Ask
    ensures { IsWriteFor desk.now.cache.pairs edited (causes.Cycle high) result }
{
    Ask::Write {
        page: desk.cache().next_to_write(edited),
        cause: Cause::Cycle { high },
    }
}
