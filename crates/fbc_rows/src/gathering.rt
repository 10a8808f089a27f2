//! What a new data page needs: an empty slot, and a free page.
#![tactic(auto, using(fbc_desk::proofs::Goes::goes_on))]

ghost use Rattle.std.specs.Prelude.{◌≡◌, ◌<◌, ◌≤◌, ◌*◌, IfSome, length, ℕ};
ghost use Rattle.fbc_kinds.specs.Limits.{pointer_limit, slots};
ghost use Rattle.fbc_space.specs.Finding.{GoesPast, StopsAt};
ghost use Rattle.fbc_rows.specs.declared.parts.RowStep.TheVariants as steps;
ghost use Rattle.fbc_rows.specs.declared.parts.Stage.TheVariants as stages;
ghost use Rattle.fbc_rows.specs.Damages.{Damages, EmptyDamages, FoundDamages};
ghost use Rattle.fbc_rows.specs.Missing.{EmptyMisses, FoundMisses, Misses};
ghost use Rattle.fbc_rows.specs.Inserting.{IsBetween, Leaves};
ghost use Rattle.fbc_cache.specs.Remembered.{pointers_of};
ghost use Rattle.fbc_desk.specs.Calls.{GoesOn};
ghost use Rattle.fbc_chains.specs.Showing.{shown_by};
ghost use Rattle.fbc_rows.specs.Gathered.{FindComesTo, GetComesTo, HeaderComesTo, PastPointers, SlotsComeTo, after_empty};
ghost use Rattle.fbc_rows.specs.Parts.{in_last, standing};
ghost use Rattle.fbc_rows.specs.Gathering.{AreFull, EmptyEnds, FindsEmpty, FirstEmpty, LooksForEmpty};
ghost use Rattle.fbc_rows.specs.Writes.{Writes};

use crate::needs::{leave_all, look_at_header, look_at_pointer, pointer_at, to_get};
use crate::parts::{InsertPart, NewPage, RowStep, Stage};
use crate::slots::first_unnamed;
use fbc_cache::Need;
use fbc_desk::{Desk, Held};
use fbc_kinds::Rule;
use fbc_space::{Found, FreeSearch, Passed, find_free};

/// How many pointer pages a relation has at most.
const MOST_POINTERS: u32 = 4;

/// What stops the search for an empty slot at a pointer page.
#[derive(Clone, Copy, Debug, PartialEq, Eq)]
pub(crate) enum Empty {
    /// The slot of this sequence names no page.
    At { sequence: u32 },
    /// The pointer page is to be got first.
    Miss(Need),
    /// The pointer page breaks the rule.
    Damaged { page: u32, rule: Rule },
}

/// Looks at the relation's pointer pages, from this one on, for an empty slot. Where one has one, a free page is looked for, and
/// the search for a cell goes back to the place.
pub(crate) fn find_slot(
    part: &mut InsertPart,
    desk: &mut Desk,
    relation: u8,
    place: u32,
    from: u32,
) -> Option<RowStep>
    ensures comes { SlotsComeTo (shown_by desk.old.cache) relation place from part.old part.new result }
    ensures same { shown_by desk.new.cache ≡ shown_by desk.old.cache }
    ensures between { IfSome result IsBetween }
    ensures leaves { IfSome result (Leaves desk.new part.new) }
    ensures misses { IfSome result (Misses desk.new) }
    ensures writes { IfSome result (Writes desk.new) }
    ensures damages { IfSome result (Damages desk.new relation) }
    ensures goes { GoesOn desk.old desk.new }
{
    let mut pointer = from;
    let found = find_empty(&mut pointer, desk, relation);
    part.stage = Stage::Slots { pointer };
    match found {
        Some(empty) => end_at(part, place, empty),
        None => {
            part.stage = Stage::Header { known: pointer };
            None
        }
    }
}

/// What the search for an empty slot comes to, of which this stops it at a pointer page.
fn end_at(part: &mut InsertPart, place: u32, empty: Empty) -> Option<RowStep>
    ensures after { part.new ≡ after_empty place empty part.old }
    ensures ends { EmptyEnds empty result }
{
    match empty {
        Empty::At { sequence } => {
            part.at = place;
            part.stage = Stage::Find {
                sequence,
                search: FreeSearch::new(),
            };
            None
        }
        Empty::Miss(need) => Some(RowStep::Miss(need)),
        Empty::Damaged { page, rule } => Some(RowStep::Damaged { page, rule }),
    }
}

/// Goes over the relation's pointer pages, from this one on, to the first one with an empty slot; none where it is past all of
/// them that are known.
fn find_empty(pointer: &mut u32, desk: &mut Desk, relation: u8) -> Option<Empty>
    ensures full { AreFull (shown_by desk.old.cache) relation pointer.old pointer.new }
    ensures finds { FindsEmpty (shown_by desk.old.cache) relation pointer.new result }
    ensures same { shown_by desk.new.cache ≡ shown_by desk.old.cache }
    ensures misses { IfSome result (EmptyMisses desk.new) }
    ensures damages { IfSome result (EmptyDamages desk.new relation) }
    ensures goes { GoesOn desk.old desk.new }
{
    let known = pointer_count(desk, relation);
    while *pointer < known as u32 {
        if let Some(found) = look_for_empty(desk, relation, *pointer) {
            return Some(found);
        }
        *pointer += 1;
    }
    None
}

/// How many pointer pages the relation has, as far as is known.
fn pointer_count(desk: &Desk, relation: u8) -> u8
    ensures { result ≡ length (pointers_of (shown_by desk.now.cache).pointers relation) }
{
    desk.cache().pointer_count(relation)
}

/// Looks at a pointer page for an empty slot; none where it has none.
fn look_for_empty(desk: &mut Desk, relation: u8, pointer: u32) -> Option<Empty>
    requires few { pointer < 256 }
    ensures looks { LooksForEmpty (shown_by desk.old.cache) relation pointer result }
    ensures same { shown_by desk.new.cache ≡ shown_by desk.old.cache }
    ensures misses { IfSome result (EmptyMisses desk.new) }
    ensures damages { IfSome result (EmptyDamages desk.new relation) }
    ensures goes { GoesOn desk.old desk.new }
{
    match look_at_pointer(desk, relation, pointer) {
        Held::Here => match first_sequence(desk, relation, pointer) {
            Some(sequence) => Some(Empty::At { sequence }),
            None => None,
        },
        Held::Miss(need) => Some(Empty::Miss(need)),
        Held::Damaged { page, rule } => Some(Empty::Damaged { page, rule }),
    }
}

/// The sequence of the first empty slot of the relation's pointer page.
fn first_sequence(desk: &Desk, relation: u8, pointer: u32) -> Option<u32>
    requires few { pointer < 256 }
    ensures { FirstEmpty (shown_by desk.now.cache) relation pointer result }
{
    desk.holds();
    let slots = desk.slots();
    let page = pointer_at(desk, relation, pointer);
    match first_unnamed(desk.cache(), page, slots) {
        Some(slot) => Some(pointer * slots + slot),
        None => None,
    }
}

/// No slot of so many pointer pages is empty. Where the header names more of them, the search goes on there; where it may not, the
/// last pass begins; else a further pointer page would be due.
pub(crate) fn look_for_pointers(
    part: &mut InsertPart,
    desk: &mut Desk,
    relation: u8,
    known: u32,
) -> RowStep
    ensures comes { HeaderComesTo (shown_by desk.old.cache) relation known part.old part.new result }
    ensures same { shown_by desk.new.cache ≡ shown_by desk.old.cache }
    ensures between { IsBetween result }
    ensures leaves { Leaves desk.new part.new result }
    ensures misses { Misses desk.new result }
    ensures writes { Writes desk.new result }
    ensures damages { Damages desk.new relation result }
    ensures goes { GoesOn desk.old desk.new }
{
    match look_at_header(desk) {
        Held::Here => look_past_pointers(part, desk, relation, known),
        Held::Miss(need) => RowStep::Miss(need),
        Held::Damaged { page, rule } => RowStep::Damaged { page, rule },
    }
}

/// The header is at hand, and no slot of so many pointer pages is empty.
fn look_past_pointers(part: &mut InsertPart, desk: &mut Desk, relation: u8, known: u32) -> RowStep
    ensures comes { PastPointers (shown_by desk.old.cache) relation known part.old part.new result }
    ensures same { shown_by desk.new.cache ≡ shown_by desk.old.cache }
    ensures between { IsBetween result }
    ensures leaves { Leaves desk.new part.new result }
    ensures misses { Misses desk.new result }
    ensures writes { Writes desk.new result }
    ensures damages { Damages desk.new relation result }
    ensures goes { GoesOn desk.old desk.new }
{
    if pointer_count(desk, relation) as u32 > known {
        return go_on(part, desk);
    }
    if known == MOST_POINTERS {
        let pages = most_sequences(desk);
        return begin_last(part, desk, pages);
    }
    RowStep::Unbuilt
}

/// How many data pages a relation has at most.
fn most_sequences(desk: &Desk) -> u32
    ensures { result ≡ pointer_limit * slots (shown_by desk.now.cache).shape.size }
{
    desk.holds();
    MOST_POINTERS * desk.slots()
}

/// The search goes on at its sequence.
fn go_on(part: &mut InsertPart, desk: &mut Desk) -> RowStep
    ensures again { result ≡ steps.Again }
    ensures after { part.new ≡ standing stages.Slot part.old }
    ensures same { shown_by desk.new.cache ≡ shown_by desk.old.cache }
    ensures between { IsBetween result }
    ensures leaves { Leaves desk.new part.new result }
    ensures misses { Misses desk.new result }
    ensures writes { Writes desk.new result }
    ensures damages { (relation : ℕ) → Damages desk.new relation result }
    ensures goes { GoesOn desk.old desk.new }
{
    part.begin_again();
    leave_all(desk);
    RowStep::Again
}

/// The last pass begins.
fn begin_last(part: &mut InsertPart, desk: &mut Desk, pages: u32) -> RowStep
    ensures again { result ≡ steps.Again }
    ensures after { part.new ≡ in_last pages part.old }
    ensures same { shown_by desk.new.cache ≡ shown_by desk.old.cache }
    ensures between { IsBetween result }
    ensures leaves { Leaves desk.new part.new result }
    ensures misses { Misses desk.new result }
    ensures writes { Writes desk.new result }
    ensures damages { (relation : ℕ) → Damages desk.new relation result }
    ensures goes { GoesOn desk.old desk.new }
{
    part.begin_last(pages);
    leave_all(desk);
    RowStep::Again
}

/// Looks for a free page for the sequence, from where the search for one stands.
pub(crate) fn find_page(
    part: &mut InsertPart,
    desk: &mut Desk,
    sequence: u32,
    from: FreeSearch,
) -> Option<RowStep>
    ensures comes { FindComesTo desk.old sequence from part.old part.new result }
    ensures same { shown_by desk.new.cache ≡ shown_by desk.old.cache }
    ensures between { IfSome result IsBetween }
    ensures leaves { IfSome result (Leaves desk.new part.new) }
    ensures misses { IfSome result (Misses desk.new) }
    ensures writes { IfSome result (Writes desk.new) }
    ensures damages { (relation : ℕ) → IfSome result (Damages desk.new relation) }
    ensures goes { GoesOn desk.old desk.new }
{
    let mut search = from;
    let found = find_free_below(&mut search, desk, &part.passed);
    part.stage = Stage::Find { sequence, search };
    match found {
        Found::Page { page } => {
            part.stage = Stage::Get {
                new: NewPage { page, sequence },
            };
            None
        }
        Found::Miss(need) => Some(RowStep::Miss(need)),
        Found::Limit { pages } => Some(begin_last(part, desk, pages)),
        Found::Uncounted { sequence: _ } => Some(RowStep::Unbuilt),
        Found::Damaged { page, rule } => Some(RowStep::Damaged { page, rule }),
    }
}

/// Searches for a free page below the limit of the file.
fn find_free_below(search: &mut FreeSearch, desk: &mut Desk, passed: &Passed) -> Found
    ensures past { GoesPast desk.old desk.old.cache.shape.limit search.old search.new }
    ensures found { StopsAt desk.old desk.old.cache.shape.limit passed.now search.new result }
    ensures same { shown_by desk.new.cache ≡ shown_by desk.old.cache }
    ensures misses { FoundMisses desk.new result }
    ensures damages { (relation : ℕ) → FoundDamages desk.new relation result }
    ensures goes { GoesOn desk.old desk.new }
{
    let limit = desk.cache().shape().limit;
    find_free(search, desk, limit, passed)
}

/// Goes on where the free page is got. It is not in use yet.
pub(crate) fn get_page(part: &mut InsertPart, desk: &Desk, new: NewPage) -> Option<RowStep>
    ensures comes { GetComesTo desk.now new part.old part.new result }
    ensures between { IfSome result IsBetween }
    ensures leaves { IfSome result (Leaves desk.now part.new) }
    ensures misses { IfSome result (Misses desk.now) }
    ensures writes { IfSome result (Writes desk.now) }
    ensures damages { (relation : ℕ) → IfSome result (Damages desk.now relation) }
{
    let need = to_get(new.page);
    if new.page >= desk.cache().shape().limit {
        return Some(RowStep::Damaged {
            page: new.page,
            rule: Rule::Taken,
        });
    }
    if desk.cache().is_here(&need) {
        part.stage = Stage::Pointer { new };
        None
    } else {
        Some(RowStep::Miss(need))
    }
}
