//! The search for an empty cell in the data pages that the relation has.
#![tactic(auto, using(fbc_desk::proofs::Goes::goes_on))]

ghost use Rattle.std.specs.Prelude.{◌≡◌, IfSome, Option};
ghost use Rattle.fbc_cache.specs.Readers.{place, place_in};
ghost use Rattle.fbc_desk.specs.Calls.{GoesOn};
ghost use Rattle.fbc_desk.specs.Roles.{misplaced};
ghost use Rattle.fbc_chains.specs.Showing.{shown_by};
ghost use Rattle.fbc_kinds.specs.declared.rules.Rule.{Rule as ARule};
ghost use Rattle.fbc_rows.specs.Damages.{NamedDamages, SearchDamages, StopDamages};
ghost use Rattle.fbc_rows.specs.Making.{naming, noted};
ghost use Rattle.fbc_rows.specs.Missing.{StopMisses};
ghost use Rattle.fbc_rows.specs.Searching.{ArePassed, IfGone, IsGone, IsNamedHere, LooksOver, NamesOther, SearchStops, sequences};
ghost use Rattle.fbc_rows.specs.Slots.{Names};

use crate::needs::{hold_data, pointer_at};
use crate::parts::{InsertPart, Stage};
use crate::slots::{SlotStep, look_at_slot};
use fbc_cache::{Need, Place};
use fbc_desk::{Desk, Held, misplaced};
use fbc_kinds::Rule;
use fbc_notes::Note;

/// What stops the search at a sequence.
#[derive(Clone, Copy, Debug, PartialEq, Eq)]
pub(crate) enum Stop {
    /// The cell of its data page is empty, and the page is in use.
    Room { page: u32, cell: u16 },
    /// This page is to be got first.
    Miss(Need),
    /// The data page is not named any more.
    Gone,
    /// The page breaks the rule.
    Damaged { page: u32, rule: Rule },
}

/// Goes over the relation's sequences, from where the part stands, to the first one with an empty cell. It goes past each that
/// has no data page, or one without an empty cell; none where it is past all of them.
pub(crate) fn search(part: &mut InsertPart, desk: &mut Desk, relation: u8) -> Option<Stop>
    ensures passes { ArePassed (shown_by desk.old.cache) relation part.old.at part.new.at }
    ensures stops { SearchStops (shown_by desk.old.cache) relation part.new.at result }
    ensures rest { part.new ≡ record part.old { at = part.new.at; stage = part.new.stage } }
    ensures gone { IfSome result (IfGone (IsGone (shown_by desk.old.cache) relation part.old)) }
    ensures same { shown_by desk.new.cache ≡ shown_by desk.old.cache }
    ensures misses { IfSome result (StopMisses desk.new) }
    ensures damages { IfSome result (SearchDamages desk.new relation part.old) }
    ensures goes { GoesOn desk.old desk.new }
{
    let end = sequences(desk, relation);
    while part.at < end {
        if let Some(stop) = look(part, desk, relation) {
            return Some(stop);
        }
        part.at += 1;
        part.stage = Stage::Slot;
    }
    None
}

/// How many sequences the relation has on the pointer pages that are known.
fn sequences(desk: &Desk, relation: u8) -> u32
    ensures { result ≡ sequences (shown_by desk.now.cache) relation }
{
    desk.holds();
    desk.cache().pointer_count(relation) as u32 * desk.slots()
}

/// The search at one sequence, from where it stands there: what stops it, or none where the sequence is passed over.
fn look(part: &mut InsertPart, desk: &mut Desk, relation: u8) -> Option<Stop>
    ensures passes { LooksOver (shown_by desk.old.cache) relation part.old.at result }
    ensures rest { part.new ≡ record part.old { stage = part.new.stage } }
    ensures gone { IfSome result (IfGone (IsGone (shown_by desk.old.cache) relation part.old)) }
    ensures same { shown_by desk.new.cache ≡ shown_by desk.old.cache }
    ensures misses { IfSome result (StopMisses desk.new) }
    ensures damages { IfSome result (SearchDamages desk.new relation part.old) }
    ensures goes { GoesOn desk.old desk.new }
{
    match part.stage {
        Stage::Page { page } => look_at_page(part, desk, relation, page),
        Stage::Named { page, broken } => look_at_name(desk, relation, part.at, page, broken),
        _ => look_from_slot(part, desk, relation),
    }
}

/// The search at the slot.
fn look_from_slot(part: &mut InsertPart, desk: &mut Desk, relation: u8) -> Option<Stop>
    ensures passes { LooksOver (shown_by desk.old.cache) relation part.old.at result }
    ensures rest { part.new ≡ record part.old { stage = part.new.stage } }
    ensures gone { IfSome result (IfGone ⊥) }
    ensures same { shown_by desk.new.cache ≡ shown_by desk.old.cache }
    ensures misses { IfSome result (StopMisses desk.new) }
    ensures damages { IfSome result (StopDamages desk.new relation) }
    ensures goes { GoesOn desk.old desk.new }
{
    match look_at_slot(desk, relation, part.at) {
        SlotStep::Names { page: 0 } => None,
        SlotStep::Names { page } => {
            part.stage = Stage::Page { page };
            look_at_page(part, desk, relation, page)
        }
        SlotStep::Miss(need) => Some(Stop::Miss(need)),
        SlotStep::Damaged { page, rule } => Some(Stop::Damaged { page, rule }),
    }
}

/// The search at the data page that the slot named.
fn look_at_page(part: &mut InsertPart, desk: &mut Desk, relation: u8, page: u32) -> Option<Stop>
    ensures passes { LooksOver (shown_by desk.old.cache) relation part.old.at result }
    ensures rest { part.new ≡ record part.old { stage = part.new.stage } }
    ensures gone { IfSome result (IfGone (NamesOther (shown_by desk.old.cache) relation part.old.at page)) }
    ensures same { shown_by desk.new.cache ≡ shown_by desk.old.cache }
    ensures misses { IfSome result (StopMisses desk.new) }
    ensures damages { IfSome result (StopDamages desk.new relation) }
    ensures goes { GoesOn desk.old desk.new }
{
    match hold_data(desk, page) {
        Held::Here => {
            let broken = leave_if_broken(desk, relation, part.at, page);
            part.stage = Stage::Named { page, broken };
            look_at_name(desk, relation, part.at, page, broken)
        }
        Held::Miss(need) => Some(Stop::Miss(need)),
        Held::Damaged { page, rule } => Some(Stop::Damaged { page, rule }),
    }
}

/// The rule that a page in use breaks, where it is not the relation's data page of the sequence: then it is in use no more.
fn leave_if_broken(desk: &mut Desk, relation: u8, sequence: u32, page: u32) -> Option<Rule>
    ensures broken { result ≡ misplaced (place_in ((shown_by desk.old.cache).copies page)) (place 5 relation sequence) }
    ensures same { shown_by desk.new.cache ≡ shown_by desk.old.cache }
    ensures goes { GoesOn desk.old desk.new }
{
    let broken = judge(desk, relation, sequence, page);
    if broken.is_some() {
        leave(desk, page);
    }
    broken
}

/// The rule that a page breaks, where it is not the relation's data page of the sequence.
pub(crate) fn judge(desk: &Desk, relation: u8, sequence: u32, page: u32) -> Option<Rule>
    ensures { result ≡ misplaced (place_in ((shown_by desk.now.cache).copies page)) (place 5 relation sequence) }
{
    let due = Place {
        kind: 5,
        relation,
        sequence,
    };
    misplaced(desk.cache().place(page), due)
}

/// A page is in use no more.
fn leave(desk: &mut Desk, page: u32)
    ensures same { shown_by desk.new.cache ≡ shown_by desk.old.cache }
    ensures goes { GoesOn desk.old desk.new }
{
    desk.unpin(page);
}

/// The search at the slot once more, whether it names the page still.
fn look_at_name(
    desk: &mut Desk,
    relation: u8,
    sequence: u32,
    page: u32,
    broken: Option<Rule>,
) -> Option<Stop>
    ensures passes { LooksOver (shown_by desk.old.cache) relation sequence result }
    ensures gone { IfSome result (IfGone (NamesOther (shown_by desk.old.cache) relation sequence page)) }
    ensures same { shown_by desk.new.cache ≡ shown_by desk.old.cache }
    ensures misses { IfSome result (StopMisses desk.new) }
    ensures damages { IfSome result (NamedDamages desk.new relation sequence page broken) }
    ensures goes { GoesOn desk.old desk.new }
{
    match look_at_slot(desk, relation, sequence) {
        SlotStep::Names { page: named } => {
            if named == page {
                look_at_named(desk, relation, sequence, page, broken)
            } else {
                Some(Stop::Gone)
            }
        }
        SlotStep::Miss(need) => Some(Stop::Miss(need)),
        SlotStep::Damaged { page, rule } => Some(Stop::Damaged { page, rule }),
    }
}

/// The search at a page that is named still: it is damaged where it broke a rule.
fn look_at_named(
    desk: &mut Desk,
    relation: u8,
    sequence: u32,
    page: u32,
    broken: Option<Rule>,
) -> Option<Stop>
    requires names { Names (shown_by desk.old.cache) relation sequence page }
    ensures passes { LooksOver (shown_by desk.old.cache) relation sequence result }
    ensures gone { IfSome result (IfGone ⊥) }
    ensures same { shown_by desk.new.cache ≡ shown_by desk.old.cache }
    ensures misses { IfSome result (StopMisses desk.new) }
    ensures damages { IfSome result (NamedDamages desk.new relation sequence page broken) }
    ensures goes { GoesOn desk.old desk.new }
{
    if let Some(rule) = broken {
        return Some(Stop::Damaged { page, rule });
    }
    match judge(desk, relation, sequence, page) {
        Some(rule) => Some(Stop::Damaged { page, rule }),
        None => look_for_cell(desk, relation, sequence, page),
    }
}

/// The search at the relation's data page of the sequence, which is in use: it stays so where it has an empty cell.
fn look_for_cell(desk: &mut Desk, relation: u8, sequence: u32, page: u32) -> Option<Stop>
    requires named { IsNamedHere (shown_by desk.old.cache) relation sequence page }
    ensures passes { LooksOver (shown_by desk.old.cache) relation sequence result }
    ensures gone { IfSome result (IfGone ⊥) }
    ensures same { shown_by desk.new.cache ≡ shown_by desk.old.cache }
    ensures misses { IfSome result (StopMisses desk.new) }
    ensures damages { (kept : Option ARule) → IfSome result (NamedDamages desk.new relation sequence page kept) }
    ensures goes { GoesOn desk.old desk.new }
{
    match desk.cache().first_empty(page) {
        Some(cell) => {
            note_named(desk, relation, sequence, page);
            Some(Stop::Room { page, cell })
        }
        None => {
            leave(desk, page);
            None
        }
    }
}

/// Notes that the slot of the sequence names the page, where the pages at hand show it.
pub(crate) fn note_named(desk: &mut Desk, relation: u8, sequence: u32, page: u32)
    ensures after { desk.new ≡ noted (naming desk.old relation sequence page) desk.old }
    ensures same { desk.new.cache ≡ desk.old.cache }
    ensures goes { GoesOn desk.old desk.new }
{
    let pointer = pointer_at(desk, relation, sequence / desk.slots());
    desk.note(&Note::Named {
        relation,
        sequence,
        pointer,
        page,
    });
}
