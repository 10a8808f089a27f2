//! What an open transaction sees, whatever others do. None of these functions does anything.

ghost use Rattle.fbc_closed_cuts.specs.Cut.{Cut, view};
ghost use Rattle.fbc_closed_cuts.specs.Firm.{HasOwnDrafts};
ghost use Rattle.fbc_closed_cuts.specs.Views.{is_edit};
ghost use Rattle.fbc_firm_facts.specs.Actors.{actor_of};
ghost use Rattle.fbc_kinds.specs.Chain.{chain, see};
ghost use Rattle.fbc_kinds.specs.Machine.{Machine, MayCome, is_held, machine_step, seen_by};
ghost use Rattle.fbc_kinds.specs.Sound.{IsSound};
ghost use Rattle.fbc_kinds.specs.View.{View};
ghost use Rattle.fbc_kinds.specs.declared.commands.Command.{Command};
ghost use Rattle.fbc_kinds.specs.declared.shapes.Shape.{Shape};
ghost use Rattle.fbc_kinds.specs.declared.snapshots.Transaction.{Transaction};
ghost use Rattle.fbc_legal.specs.Legal.{IsLegal};
ghost use Rattle.fbc_page_edits.specs.Edited.{IsOfShape};
ghost use Rattle.fbc_runs.specs.Ended.{is_owner_of, settled_by};
ghost use Rattle.fbc_runs.specs.Orderly.{IsOrderly};
ghost use Rattle.fbc_simulation.specs.Beside.{machine_of};
ghost use Rattle.fbc_world.specs.History.{History, Moment};
ghost use Rattle.fbc_world.specs.World.{world_of};
ghost use Rattle.std.specs.Prelude.{◌≡◌, ◌≢◌, ◌∷◌, ℕ, Bool, List, None, Some, false, true};

use fbc_simulation::legal_histories_are_simulated;
use fbc_soundness::legal_histories_are_whole;

/// An owner whose transaction goes on sees the same of each row where the others are at their ends.
pub fn ended_machines_are_seen_alike()
    ensures { (living : List Transaction) (commits : ℕ → Bool) (machine : Machine) (who relation row : ℕ)
        → IsOrderly machine → is_owner_of living who ≡ true
        → seen_by (settled_by living commits machine) who relation row ≡ seen_by machine who relation row }
{}

/// What an owner sees of a row stays, whatever another one asks of the machine.
pub fn others_leave_what_is_seen()
    ensures { (machine : Machine) (command : Command) (who relation row : ℕ)
        → IsOrderly machine → MayCome machine command → actor_of command ≢ who
        → seen_by (machine_step machine command) who relation row ≡ seen_by machine who relation row }
{}

/// So it stays through every legal event of another.
pub fn events_of_others_leave_what_is_seen()
    ensures { (shape : Shape) (file : View) (before : History) (moment : Moment) (owner relation row : ℕ)
        → IsOfShape shape file → IsSound file
        → IsLegal shape file (moment ∷ before) → moment.event.actor ≢ owner
        → seen_by (machine_of shape file (moment ∷ before)) owner relation row
        ≡ seen_by (machine_of shape file before) owner relation row }
{
    legal_histories_are_simulated();
}

/// An owner's own events that are no edits leave the machine, and so what it sees, while it lives and has
/// an open transaction that it has not marked as committed.
pub fn own_acts_leave_the_machine()
    ensures { (shape : Shape) (file : View) (before : History) (moment : Moment) (t : Transaction)
        → IsLegal shape file (moment ∷ before) → is_edit moment.event.act ≡ false
        → (world_of shape file (moment ∷ before)).is_alive moment.event.actor ≡ true
        → (world_of shape file before).transaction moment.event.actor ≡ Some t
        → (world_of shape file before).marked moment.event.actor ≡ None
        → machine_of shape file (moment ∷ before) ≡ machine_of shape file before }
{}

/// Every view that has all drafts of an owner shows its open transaction what the machine does: of each
/// row's chain its snapshot sees what the owner sees of the row.
pub fn every_own_view_shows_what_is_seen()
    ensures { (shape : Shape) (file : View) (history : History) (owner relation row : ℕ) (t : Transaction) (cut : Cut)
        → IsOfShape shape file → IsSound file → IsLegal shape file history
        → (world_of shape file history).transaction owner ≡ Some t
        → HasOwnDrafts (world_of shape file history) owner cut
        → see (chain (view (world_of shape file history) cut) relation row) (is_held t.snapshot)
        ≡ seen_by (machine_of shape file history) owner relation row }
{
    legal_histories_are_whole();
    legal_histories_are_simulated();
}
