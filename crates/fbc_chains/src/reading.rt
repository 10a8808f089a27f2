//! The read of a row.
#![tactic(auto, using(fbc_desk::proofs::Goes::goes_on))]

ghost use Rattle.std.specs.Prelude.{◌≡◌, ℕ, Bool, IfOk, OnErr};
ghost use Rattle.fbc_kinds.specs.Chain.{holds};
ghost use Rattle.fbc_desk.specs.Calls.{GoesOn};
ghost use Rattle.fbc_chains.specs.declared.parts.ReadPart.TheVariants as parts;
ghost use Rattle.fbc_chains.specs.Pages.{IsThere, StandsAt, data_due};
ghost use Rattle.fbc_chains.specs.Places.{row_place};
ghost use Rattle.fbc_chains.specs.Reading.{ComesTo};
ghost use Rattle.fbc_chains.specs.Showing.{shown_by};
ghost use Rattle.fbc_chains.specs.Using.{IsUsed, LeavesUsed, Stands, StandsStill};
ghost use Rattle.fbc_chains.specs.Waiting.{WaitsInTurn};

use crate::pages::{hold_data, leave};
use crate::parts::{ReadPart, ReadStep};
use crate::places::{RowPlace, row_place};
use crate::slots::{SlotStep, look_at_slot};
use crate::telling::{Told, is_top, tell};
use crate::walking::walk;
use fbc_desk::{Desk, Held, misplaced};
use fbc_kinds::{Rule, Snapshot};
use std::alloc::AllocError;

/// Reads the row, from where the part stands: the value of its first version that the snapshot holds. Where a page is
/// missing, the part stays where it stands, and goes on from there when it is called again.
///
/// # Errors
///
/// None: it takes no memory.
pub fn try_read(
    part: &mut ReadPart,
    desk: &mut Desk,
    relation: u8,
    row: u32,
    snapshot: &Snapshot,
) -> Result<ReadStep, AllocError>
    ensures comes { IfOk result (ComesTo (shown_by desk.old.cache) (row_place desk.old.cache.shape relation row) (holds snapshot.now) part.old part.new) }
    ensures waits { IfOk result (WaitsInTurn desk.new part.new) }
    ensures stands { Stands desk.old part.old → IfOk result (StandsStill desk.new part.new) }
    ensures left { IfOk result (LeavesUsed desk.old (row_place desk.old.cache.shape relation row) part.old desk.new part.new) }
    ensures same { shown_by desk.new.cache ≡ shown_by desk.old.cache }
    ensures goes { GoesOn desk.old desk.new }
    ensures never { OnErr result ⊥ }
{
    let at = row_place(desk, relation, row);
    Ok(read(part, desk, at, snapshot))
}

/// Reads the row at this place.
fn read(part: &mut ReadPart, desk: &mut Desk, at: RowPlace, snapshot: &Snapshot) -> ReadStep
    ensures comes { ComesTo (shown_by desk.old.cache) at (holds snapshot.now) part.old part.new result }
    ensures waits { WaitsInTurn desk.new part.new result }
    ensures stands { Stands desk.old part.old → StandsStill desk.new part.new result }
    ensures left { LeavesUsed desk.old at part.old desk.new part.new result }
    ensures same { shown_by desk.new.cache ≡ shown_by desk.old.cache }
    ensures goes { GoesOn desk.old desk.new }
{
    match *part {
        ReadPart::Slot => read_slot(part, desk, at, snapshot),
        ReadPart::Page { page } => read_page(part, desk, at, snapshot, page),
        ReadPart::Named { page, rule } => read_name(part, desk, at, page, rule),
        ReadPart::Walk { page, cell } => walk(part, desk, at, snapshot, page, cell),
    }
}

/// The read at the slot: where it names a page, it goes on there.
fn read_slot(part: &mut ReadPart, desk: &mut Desk, at: RowPlace, snapshot: &Snapshot) -> ReadStep
    ensures comes { ComesTo (shown_by desk.old.cache) at (holds snapshot.now) parts.Slot part.new result }
    ensures waits { WaitsInTurn desk.new part.new result }
    ensures stands { StandsStill desk.new part.new result }
    ensures left { LeavesUsed desk.old at parts.Slot desk.new part.new result }
    ensures same { shown_by desk.new.cache ≡ shown_by desk.old.cache }
    ensures goes { GoesOn desk.old desk.new }
{
    *part = ReadPart::Slot;
    match look_at_slot(desk, at) {
        SlotStep::Names { page: 0 } => ReadStep::Done(None),
        SlotStep::Names { page } => read_page(part, desk, at, snapshot, page),
        SlotStep::Miss(need) => ReadStep::Miss(need),
        SlotStep::Damaged { page, rule } => ReadStep::Damaged { page, rule },
    }
}

/// The read at the page that the slot named.
fn read_page(
    part: &mut ReadPart,
    desk: &mut Desk,
    at: RowPlace,
    snapshot: &Snapshot,
    page: u32,
) -> ReadStep
    ensures comes { ComesTo (shown_by desk.old.cache) at (holds snapshot.now) (parts.Page page) part.new result }
    ensures waits { WaitsInTurn desk.new part.new result }
    ensures stands { StandsStill desk.new part.new result }
    ensures left { LeavesUsed desk.old at (parts.Page page) desk.new part.new result }
    ensures same { shown_by desk.new.cache ≡ shown_by desk.old.cache }
    ensures goes { GoesOn desk.old desk.new }
{
    *part = ReadPart::Page { page };
    match hold_data(desk, page) {
        Held::Here => judge_page(part, desk, at, snapshot, page),
        Held::Miss(need) => ReadStep::Miss(need),
        Held::Damaged { page, rule } => ReadStep::Damaged { page, rule },
    }
}

/// The read at a page in use: where it is not the data page of the row, it is left, and the slot is looked at once more.
fn judge_page(
    part: &mut ReadPart,
    desk: &mut Desk,
    at: RowPlace,
    snapshot: &Snapshot,
    page: u32,
) -> ReadStep
    requires part { part.old ≡ parts.Page page }
    requires there { IsThere (shown_by desk.old.cache) page }
    requires used { IsUsed desk.old page }
    ensures comes { ComesTo (shown_by desk.old.cache) at (holds snapshot.now) (parts.Page page) part.new result }
    ensures waits { WaitsInTurn desk.new part.new result }
    ensures stands { StandsStill desk.new part.new result }
    ensures left { LeavesUsed desk.old at (parts.Walk page at.cell) desk.new part.new result }
    ensures same { shown_by desk.new.cache ≡ shown_by desk.old.cache }
    ensures goes { GoesOn desk.old desk.new }
{
    match misplaced(desk.cache().place(page), at.data_place()) {
        Some(rule) => {
            leave(desk, page);
            read_name(part, desk, at, page, rule)
        }
        None => read_row(part, desk, at, snapshot, page),
    }
}

/// The read at the slot once more: the page is damaged where it is named still.
fn read_name(part: &mut ReadPart, desk: &mut Desk, at: RowPlace, page: u32, rule: Rule) -> ReadStep
    ensures comes { (seen : ℕ → Bool) → ComesTo (shown_by desk.old.cache) at seen (parts.Named page rule) part.new result }
    ensures waits { WaitsInTurn desk.new part.new result }
    ensures stands { StandsStill desk.new part.new result }
    ensures kept { (other : ℕ) → IsUsed desk.new other → IsUsed desk.old other }
    ensures same { shown_by desk.new.cache ≡ shown_by desk.old.cache }
    ensures goes { GoesOn desk.old desk.new }
{
    *part = ReadPart::Named { page, rule };
    match look_at_slot(desk, at) {
        SlotStep::Names { page: named } => if named == page {
            ReadStep::Damaged { page, rule }
        } else {
            ReadStep::Done(None)
        },
        SlotStep::Miss(need) => ReadStep::Miss(need),
        SlotStep::Damaged { page, rule } => ReadStep::Damaged { page, rule },
    }
}

/// The read at the row's own cell, on the data page of the row, which is in use.
fn read_row(
    part: &mut ReadPart,
    desk: &mut Desk,
    at: RowPlace,
    snapshot: &Snapshot,
    page: u32,
) -> ReadStep
    requires part { part.old ≡ parts.Page page }
    requires stands { StandsAt (shown_by desk.old.cache) page (data_due at) }
    requires used { IsUsed desk.old page }
    ensures comes { ComesTo (shown_by desk.old.cache) at (holds snapshot.now) (parts.Page page) part.new result }
    ensures waits { WaitsInTurn desk.new part.new result }
    ensures stands { StandsStill desk.new part.new result }
    ensures left { LeavesUsed desk.old at (parts.Walk page at.cell) desk.new part.new result }
    ensures same { shown_by desk.new.cache ≡ shown_by desk.old.cache }
    ensures goes { GoesOn desk.old desk.new }
{
    if !is_top(desk.cache(), page, at.cell) {
        return ReadStep::Done(None);
    }
    match tell(desk.cache(), snapshot, page, at.cell) {
        Told::Sees(value) => {
            leave(desk, page);
            ReadStep::Done(value)
        }
        Told::LeadsOn => walk(part, desk, at, snapshot, page, at.cell),
    }
}
