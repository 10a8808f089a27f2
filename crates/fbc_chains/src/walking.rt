//! The way down the versions of a row.
#![tactic(auto, using(fbc_desk::proofs::Goes::goes_on))]

ghost use Rattle.std.specs.Prelude.{◌≡◌};
ghost use Rattle.fbc_kinds.specs.Chain.{holds};
ghost use Rattle.fbc_desk.specs.Calls.{GoesOn};
ghost use Rattle.fbc_chains.specs.declared.parts.ReadPart.TheVariants as parts;
ghost use Rattle.fbc_chains.specs.Pages.{IsThere};
ghost use Rattle.fbc_chains.specs.Reading.{ComesTo, StepsDown};
ghost use Rattle.fbc_chains.specs.Showing.{shown_by};
ghost use Rattle.fbc_chains.specs.Versions.{page_below};
ghost use Rattle.fbc_chains.specs.Using.{IsUsed, LeavesAbove, LeavesBoth, LeavesUsed, StandsDown, StandsStill};
ghost use Rattle.fbc_chains.specs.Waiting.{StepWaits, WaitsInTurn};

use crate::pages::{hold_data, leave, leave_for};
use crate::parts::{ReadPart, ReadStep};
use crate::places::RowPlace;
use crate::telling::{Told, leads_to_older, tell};
use fbc_desk::{Desk, Held};
use fbc_kinds::{Rule, Snapshot};

/// What a step down comes to.
#[derive(Clone, Copy, Debug, PartialEq, Eq)]
pub(crate) enum Down {
    /// The version before stands in the cell of the page, which is in use: it is not seen, and leads on.
    To { page: u32, cell: u16 },
    /// The read comes to this.
    Answer(ReadStep),
}

/// Goes down from the version in the cell of the page, which is not seen and leads on, to the first one that is seen, or to
/// the end of the chain.
pub(crate) fn walk(
    part: &mut ReadPart,
    desk: &mut Desk,
    at: RowPlace,
    snapshot: &Snapshot,
    from: u32,
    first: u16,
) -> ReadStep
    ensures comes { ComesTo (shown_by desk.old.cache) at (holds snapshot.now) (parts.Walk from first) part.new result }
    ensures waits { WaitsInTurn desk.new part.new result }
    ensures stands { IsUsed desk.old from → StandsStill desk.new part.new result }
    ensures left { LeavesUsed desk.old at (parts.Walk from first) desk.new part.new result }
    ensures same { shown_by desk.new.cache ≡ shown_by desk.old.cache }
    ensures goes { GoesOn desk.old desk.new }
{
    let mut page = from;
    let mut cell = first;
    loop {
        *part = ReadPart::Walk { page, cell };
        match step_down(desk, at, snapshot, page, cell) {
            Down::To {
                page: below,
                cell: older,
            } => {
                page = below;
                cell = older;
            }
            Down::Answer(step) => return step,
        }
    }
}

/// One step down from the version in the cell of the page: the page of the version before it is used.
fn step_down(desk: &mut Desk, at: RowPlace, snapshot: &Snapshot, page: u32, cell: u16) -> Down
    ensures steps { StepsDown (shown_by desk.old.cache) at (holds snapshot.now) page cell result }
    ensures waits { StepWaits desk.new result }
    ensures stands { StandsDown desk.old desk.new page result }
    ensures left { LeavesAbove desk.old page cell desk.new result }
    ensures same { shown_by desk.new.cache ≡ shown_by desk.old.cache }
    ensures goes { GoesOn desk.old desk.new }
{
    let below = desk.cache().back_page(page, cell);
    match hold_data(desk, below) {
        Held::Here => stand_below(desk, at, snapshot, page, cell),
        Held::Miss(need) => Down::Answer(ReadStep::Miss(need)),
        Held::Damaged { page, rule } => Down::Answer(ReadStep::Damaged { page, rule }),
    }
}

/// What the version before the one in the cell comes to, where its page is in use. Where it is one, the page above is in use
/// no more, unless it is the same; and none is at the end of the way.
fn stand_below(desk: &mut Desk, at: RowPlace, snapshot: &Snapshot, page: u32, cell: u16) -> Down
    requires there { IsThere (shown_by desk.old.cache) (page_below (shown_by desk.old.cache) page cell) }
    requires used { IsUsed desk.old (page_below (shown_by desk.old.cache) page cell) }
    ensures steps { StepsDown (shown_by desk.old.cache) at (holds snapshot.now) page cell result }
    ensures waits { StepWaits desk.new result }
    ensures stands { StandsDown desk.old desk.new page result }
    ensures left { LeavesBoth desk.old page cell desk.new result }
    ensures same { shown_by desk.new.cache ≡ shown_by desk.old.cache }
    ensures goes { GoesOn desk.old desk.new }
{
    if !leads_to_older(desk.cache(), at.relation, page, cell) {
        return Down::Answer(ReadStep::Damaged {
            page,
            rule: Rule::Chain,
        });
    }
    let below = desk.cache().back_page(page, cell);
    let older = desk.cache().back_cell(page, cell);
    leave_for(desk, page, below);
    match tell(desk.cache(), snapshot, below, older) {
        Told::Sees(value) => {
            leave(desk, below);
            Down::Answer(ReadStep::Done(value))
        }
        Told::LeadsOn => Down::To {
            page: below,
            cell: older,
        },
    }
}
