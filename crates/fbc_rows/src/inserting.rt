//! The body of an insert.
#![tactic(auto, using(fbc_desk::proofs::Goes::goes_on))]

ghost use Rattle.std.specs.Prelude.{◌≡◌, IfOk, IfSome, OnErr, false, true};
ghost use Rattle.fbc_desk.specs.Calls.{GoesOn};
ghost use Rattle.fbc_chains.specs.Showing.{shown_by};
ghost use Rattle.fbc_rows.specs.declared.parts.InsertPart.{InsertPart as APart};
ghost use Rattle.fbc_rows.specs.declared.parts.RowStep.TheVariants as steps;
ghost use Rattle.fbc_rows.specs.Inserting.{InsertComesTo, IsAtEnd, IsBefore, IsBetween, Leaves, LimitComes, Searches, SearchesFirst, place_after};
ghost use Rattle.fbc_rows.specs.Damages.{Damages, InsertDamages, SearchDamages};
ghost use Rattle.fbc_rows.specs.Missing.{Misses, StopMisses};
ghost use Rattle.fbc_rows.specs.Parts.{is_searching, is_to_put, went_back};
ghost use Rattle.fbc_rows.specs.Searching.{CellComesTo, SearchEnds, StopEnds};
ghost use Rattle.fbc_rows.specs.Stages.{PutsAt, StageComesTo, Wants, WayComesTo, WayStops};
ghost use Rattle.fbc_rows.specs.Writes.{Writes};

use crate::gathering::{find_page, find_slot, get_page, look_for_pointers};
use crate::making::{name_page, take_page, use_page, use_pointer};
use crate::needs::leave_all;
use crate::parts::{InsertPart, RowStep, Stage};
use crate::putting::put_row;
use crate::searching::{Stop, search};
use fbc_desk::Desk;
use fbc_kinds::Value;
use std::alloc::AllocError;

/// Puts a new row of the relation, made by the transaction of that number, into the first empty cell from the part's sequence
/// on; or into a new data page, where no page has one. Where a page is missing or a write is due first, the part stays where it
/// stands, and goes on from there when it is called again. The place is the sequence at which the relation got its last row.
///
/// # Errors
///
/// Want of memory: what was done stands, as the part says.
pub fn try_insert(
    part: &mut InsertPart,
    desk: &mut Desk,
    relation: u8,
    place: &mut u32,
    number: u32,
    value: Value,
) -> Result<RowStep, AllocError>
    ensures way { IfOk result (WayComesTo relation place.old number value desk.old part.old desk.new part.new) }
    ensures comes { IfOk result (InsertComesTo desk.old relation number value place.old place.new desk.new) }
    ensures limit { IfOk result (LimitComes (shown_by desk.old.cache) relation part.old) }
    ensures searches { is_searching part.old.stage ≡ true → IfOk result (Searches (shown_by desk.old.cache) relation part.old.at part.new) }
    ensures leaves { IfOk result (Leaves desk.new part.new) }
    ensures misses { IfOk result (Misses desk.new) }
    ensures writes { IfOk result (Writes desk.new) }
    ensures damages { IfOk result (InsertDamages desk.new relation part.old) }
    ensures goes { GoesOn desk.old desk.new }
    ensures err { OnErr result (place.new ≡ place.old) }
    ensures stops { OnErr result (WayStops relation place.old desk.old part.old desk.new part.new) }
{
    while !part.is_to_put() {
        if let Some(step) = go_on(part, desk, relation, *place)? {
            return Ok(step);
        }
    }
    put(part, desk, relation, place, number, value)
}

/// What the insert comes to at a stage before the last; none where it goes on to a later one.
fn go_on(
    part: &mut InsertPart,
    desk: &mut Desk,
    relation: u8,
    place: u32,
) -> Result<Option<RowStep>, AllocError>
    requires earlier { is_to_put part.old.stage ≡ false }
    ensures comes { IfOk result (StageComesTo relation place part.old.stage desk.old part.old desk.new part.new) }
    ensures before { IfOk result (λ done. IfSome done (IsBefore (shown_by desk.old.cache) relation part.old)) }
    ensures between { is_searching part.old.stage ≡ false → IfOk result (λ done. IfSome done IsBetween) }
    ensures searches { is_searching part.old.stage ≡ true → IfOk result (SearchesFirst (shown_by desk.old.cache) relation part.old.at part.new) }
    ensures leaves { IfOk result (λ done. IfSome done (Leaves desk.new part.new)) }
    ensures misses { IfOk result (λ done. IfSome done (Misses desk.new)) }
    ensures writes { IfOk result (λ done. IfSome done (Writes desk.new)) }
    ensures damages { IfOk result (λ done. IfSome done (InsertDamages desk.new relation part.old)) }
    ensures goes { GoesOn desk.old desk.new }
    ensures err { OnErr result (Wants relation part.old.stage desk.old part.old desk.new part.new) }
{
    match part.stage {
        Stage::Slots { pointer } => Ok(find_slot(part, desk, relation, place, pointer)),
        Stage::Header { known } => Ok(Some(look_for_pointers(part, desk, relation, known))),
        Stage::Find { sequence, search } => Ok(find_page(part, desk, sequence, search)),
        Stage::Get { new } => Ok(get_page(part, desk, new)),
        Stage::Pointer { new } => Ok(use_pointer(part, desk, relation, new)),
        Stage::Free { new } => Ok(use_page(part, desk, new)),
        Stage::Take { new, taking } => take_page(part, desk, relation, new, taking),
        Stage::Name { new } => name_page(part, desk, relation, new),
        _ => Ok(find_cell(part, desk, relation, place)),
    }
}

/// Puts the row: then the place is the sequence of its page.
fn put(
    part: &InsertPart,
    desk: &mut Desk,
    relation: u8,
    place: &mut u32,
    number: u32,
    value: Value,
) -> Result<RowStep, AllocError>
    requires last { is_to_put part.now.stage ≡ true }
    ensures puts { IfOk result (PutsAt relation number value part.now.stage desk.old desk.new) }
    ensures comes { IfOk result (InsertComesTo desk.old relation number value place.old place.new desk.new) }
    ensures ends { IfOk result IsAtEnd }
    ensures leaves { IfOk result (Leaves desk.new part.now) }
    ensures misses { IfOk result (Misses desk.new) }
    ensures writes { IfOk result (Writes desk.new) }
    ensures damages { IfOk result (Damages desk.new relation) }
    ensures goes { GoesOn desk.old desk.new }
    ensures err { OnErr result ((place.new ≡ place.old) × (desk.new ≡ desk.old)) }
{
    match part.stage {
        Stage::Put {
            page,
            sequence,
            cell,
        } => {
            let step = put_row(desk, relation, number, value, page, sequence, cell)?;
            *place = place_after(&step, sequence, *place);
            Ok(step)
        }
        _ => Ok(RowStep::Refused),
    }
}

/// The place afterwards: the sequence, where the row is put.
fn place_after(step: &RowStep, sequence: u32, place: u32) -> u32
    ensures { result ≡ place_after step.now sequence place }
{
    match step {
        RowStep::Done { row: _ } => sequence,
        _ => place,
    }
}

/// The search for an empty cell.
fn find_cell(part: &mut InsertPart, desk: &mut Desk, relation: u8, place: u32) -> Option<RowStep>
    ensures comes { CellComesTo (shown_by desk.old.cache) relation place part.old part.new result }
    ensures searches { SearchesFirst (shown_by desk.old.cache) relation part.old.at part.new result }
    ensures before { IfSome result (IsBefore (shown_by desk.old.cache) relation part.old) }
    ensures same { shown_by desk.new.cache ≡ shown_by desk.old.cache }
    ensures leaves { IfSome result (Leaves desk.new part.new) }
    ensures misses { IfSome result (Misses desk.new) }
    ensures writes { IfSome result (Writes desk.new) }
    ensures damages { IfSome result (InsertDamages desk.new relation part.old) }
    ensures goes { GoesOn desk.old desk.new }
{
    let found = search(part, desk, relation);
    end_search(part, desk, relation, place, found)
}

/// What the search for an empty cell comes to, of which this is found: the row is put there, or slots are looked at; or the last
/// pass is over.
fn end_search(
    part: &mut InsertPart,
    desk: &mut Desk,
    relation: u8,
    place: u32,
    found: Option<Stop>,
) -> Option<RowStep>
    ensures ends { SearchEnds place part.old part.new found result }
    ensures same { shown_by desk.new.cache ≡ shown_by desk.old.cache }
    ensures leaves { IfSome result (Leaves desk.new part.new) }
    ensures misses { IfSome found (StopMisses desk.old) → IfSome result (Misses desk.new) }
    ensures writes { IfSome result (Writes desk.new) }
    ensures damages { (from : APart) → IfSome found (SearchDamages desk.old relation from) → IfSome result (InsertDamages desk.new relation from) }
    ensures goes { GoesOn desk.old desk.new }
{
    match found {
        Some(stop) => end_at(part, desk, relation, place, stop),
        None => match part.last {
            Some(pages) => Some(RowStep::Limit { pages }),
            None => {
                part.stage = Stage::Slots { pointer: 0 };
                None
            }
        },
    }
}

/// What the search for an empty cell comes to, of which this stops it at a sequence.
fn end_at(
    part: &mut InsertPart,
    desk: &mut Desk,
    relation: u8,
    place: u32,
    stop: Stop,
) -> Option<RowStep>
    ensures ends { StopEnds place part.old part.new stop result }
    ensures same { shown_by desk.new.cache ≡ shown_by desk.old.cache }
    ensures leaves { IfSome result (Leaves desk.new part.new) }
    ensures misses { StopMisses desk.old stop → IfSome result (Misses desk.new) }
    ensures writes { IfSome result (Writes desk.new) }
    ensures damages { (from : APart) → SearchDamages desk.old relation from stop → IfSome result (InsertDamages desk.new relation from) }
    ensures goes { GoesOn desk.old desk.new }
{
    match stop {
        Stop::Room { page, cell } => {
            part.stage = Stage::Put {
                page,
                sequence: part.at,
                cell,
            };
            None
        }
        Stop::Miss(need) => Some(RowStep::Miss(need)),
        Stop::Gone => Some(search_anew(part, desk, place)),
        Stop::Damaged { page, rule } => Some(RowStep::Damaged { page, rule }),
    }
}

/// The search goes back, and begins anew.
fn search_anew(part: &mut InsertPart, desk: &mut Desk, place: u32) -> RowStep
    ensures again { result ≡ steps.Again }
    ensures after { part.new ≡ went_back place part.old }
    ensures same { shown_by desk.new.cache ≡ shown_by desk.old.cache }
    ensures leaves { Leaves desk.new part.new result }
    ensures misses { Misses desk.new result }
    ensures writes { Writes desk.new result }
    ensures goes { GoesOn desk.old desk.new }
{
    part.go_back(place);
    leave_all(desk);
    RowStep::Again
}
