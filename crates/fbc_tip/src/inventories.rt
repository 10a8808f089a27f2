//! The snapshot of a transaction that begins: the states of all numbers at one moment.

ghost use Rattle.std.specs.Prelude.{◌≡◌, ◌<◌, IfOk, length};
ghost use Rattle.fbc_kinds.specs.declared.pages.Header.{Header as AHeader};
ghost use Rattle.fbc_cache.specs.Readers.{header_number, place};
ghost use Rattle.fbc_desk.specs.Calls.{GoesOn};
ghost use Rattle.fbc_desk.specs.Holds.{after_hold};
ghost use Rattle.fbc_tip.specs.Inventories.{AreHeld, AreKept, AreStatesOf, HoldsOn, HoldsTip, InventoryComesTo, TipsCome};
ghost use Rattle.fbc_tip.specs.Inventories.{is_held_tip, last_hold, reading, tip_at};
ghost use Rattle.fbc_tip.specs.Using.{OnlyUses};

use fbc_cache::{Need, Place};
use fbc_desk::{Desk, Held, misplaced};
use fbc_kinds::{Listed, Rule, Snapshot};
use fbc_levels::Level;
use std::alloc::{AllocError, Global};

/// How far the holding of the transaction inventory pages has come.
#[derive(Clone, Copy, Debug, PartialEq, Eq)]
pub struct InventoryPart {
    /// How many of them are held, from the first on.
    pub held: u32,
}

impl InventoryPart {
    /// None is held yet.
    pub fn new() -> Self
        ensures { result.held ≡ 0 }
    {
        InventoryPart { held: 0 }
    }
}

/// What the taking of a snapshot comes to.
#[derive(Debug, Drop)]
pub enum TipStep {
    /// The snapshot is taken, and all transaction inventory pages are in use.
    Done(Snapshot),
    /// This page is to be got first.
    Miss(Need),
    /// The page breaks the rule.
    Damaged { page: u32, rule: Rule },
}

/// Holds the transaction inventory pages, in the order of their sequences, and takes the snapshot when all of them are
/// in use at once. The header is to be in use: its next number is the own one of the snapshot.
///
/// # Errors
///
/// Want of memory, when all pages are held.
pub fn try_inventory(
    alloc: Global,
    part: &mut InventoryPart,
    desk: &mut Desk,
) -> Result<TipStep, AllocError>
    ensures step { IfOk result (InventoryComesTo desk.new part.new.held) }
    ensures held { AreHeld desk.new part.new.held }
    ensures turns { HoldsOn desk.old part.old.held desk.new part.new.held (last_hold result) }
    ensures same { OnlyUses desk.old desk.new }
    ensures goes { GoesOn desk.old desk.new }
{
    match hold_tips(part, desk) {
        Held::Here => Ok(TipStep::Done(inventory_now(alloc, desk)?)),
        Held::Miss(need) => Ok(TipStep::Miss(need)),
        Held::Damaged { page, rule } => Ok(TipStep::Damaged { page, rule }),
    }
}

/// Holds the pages that are not held yet, up to one that is missing or damaged.
fn hold_tips(part: &mut InventoryPart, desk: &mut Desk) -> Held
    ensures held { AreHeld desk.new part.new.held }
    ensures comes { TipsCome desk.new part.new.held result }
    ensures turns { HoldsOn desk.old part.old.held desk.new part.new.held result }
    ensures same { OnlyUses desk.old desk.new }
    ensures goes { GoesOn desk.old desk.new }
{
    part.held = still_held(desk, part.held);
    for sequence in part.held..desk.tip_count() {
        match hold_tip(desk, sequence) {
            Held::Here => part.held = sequence + 1,
            Held::Miss(need) => return Held::Miss(need),
            Held::Damaged { page, rule } => return Held::Damaged { page, rule },
        }
    }
    Held::Here
}

/// How many of the first `held` pages are held still, up to one that is not.
fn still_held(desk: &Desk, held: u32) -> u32
    ensures { AreKept desk.now held result }
{
    let most = held.min(desk.tip_count());
    for sequence in 0..most {
        if !is_held_tip(desk, sequence) {
            return sequence;
        }
    }
    most
}

/// Whether the page of this sequence is in use, and is a transaction inventory page of this sequence.
fn is_held_tip(desk: &Desk, sequence: u32) -> bool
    ensures { result ≡ is_held_tip desk.now sequence }
{
    let page = desk.tip_page(sequence);
    desk.cache().pinned(page) && misplaced(desk.cache().place(page), tip_place(sequence)).is_none()
}

/// Where the transaction inventory page of a sequence stands.
pub(crate) fn tip_place(sequence: u32) -> Place
    ensures { result ≡ place 3 0 sequence }
{
    Place {
        kind: 3,
        relation: 0,
        sequence,
    }
}

/// Holds the page of this sequence, to read it.
fn hold_tip(desk: &mut Desk, sequence: u32) -> Held
    ensures held { HoldsTip desk.old sequence result }
    ensures after { desk.new ≡ after_hold desk.old (reading (tip_at desk.old sequence)) result }
    ensures goes { GoesOn desk.old desk.new }
{
    let need = reading(desk.tip_page(sequence));
    desk.hold_as(need, tip_place(sequence))
}

/// The page is needed to be read, and is waited for.
pub(crate) fn reading(page: u32) -> Need
    ensures { result ≡ reading page }
{
    Need {
        page,
        level: Level::Pr,
        wait: true,
        fresh: false,
    }
}

/// The snapshot by the pages that are held now.
fn inventory_now(alloc: Global, desk: &Desk) -> Result<Snapshot, AllocError>
    requires held { AreHeld desk.now (length desk.now.tips) }
    ensures own { IfOk result (λ snapshot. snapshot.own ≡ header_number (λ (h : AHeader). h.next) desk.now.cache) }
    ensures states { IfOk result (λ snapshot. AreStatesOf desk.now snapshot.states) }
{
    desk.holds();
    let count = desk.tip_count();
    let mut states = Vec::with_capacity(alloc, desk.tip_numbers() as usize * count as usize)?;
    for sequence in 0..count {
        states.extend_from_slice(desk.cache().states(desk.tip_page(sequence)))?;
    }
    Ok(Snapshot {
        own: desk.cache().next(),
        states: Listed::new(states),
    })
}
