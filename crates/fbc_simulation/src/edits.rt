//! Edits beside the machine. None of these functions does anything.

ghost use Rattle.fbc_closed_cuts.specs.Cut.{Cut};
ghost use Rattle.fbc_kinds.specs.View.{View};
ghost use Rattle.fbc_kinds.specs.declared.edits.Edit.TheVariants.{Mark};
ghost use Rattle.fbc_kinds.specs.declared.edits.Edit.{Edit};
ghost use Rattle.fbc_kinds.specs.declared.pages.Page.{Page};
ghost use Rattle.fbc_kinds.specs.declared.pages.State.{State};
ghost use Rattle.fbc_kinds.specs.declared.shapes.Shape.{Shape};
ghost use Rattle.fbc_kinds.specs.declared.snapshots.Transaction.{Transaction};
ghost use Rattle.fbc_legal.specs.Legal.{IsLegal};
ghost use Rattle.fbc_legal.specs.Scene.{scene_of};
ghost use Rattle.fbc_runs.specs.Runs.{MayAllCome};
ghost use Rattle.fbc_simulation.specs.Beside.{machine_of};
ghost use Rattle.fbc_simulation.specs.EditIn.{EditIsMeant, IsEditIn, commands_made};
ghost use Rattle.fbc_simulation.specs.Plain.{is_plain};
ghost use Rattle.fbc_simulation.specs.Simulated.{IsSimulated};
ghost use Rattle.fbc_soundness.specs.Whole.{IsWhole};
ghost use Rattle.fbc_world.specs.History.{History, happens};
ghost use Rattle.fbc_world.specs.World.{world_of};
ghost use Rattle.fbc_world.specs.declared.events.Act.TheVariants.{Local};
ghost use Rattle.fbc_world.specs.declared.events.LocalEvent.TheVariants as local;
ghost use Rattle.std.specs.Prelude.{◌≡◌, ◌∷◌, ℕ, Bool, List, true};

use fbc_meanings::{marks_are_not_read, marks_commit};

/// An edit that changes no cell and no state is no command, and leaves the view to read as before.
pub fn plain_edits_are_meant()
    ensures { (shape : Shape) (file : View) (past : History) (owner page : ℕ) (edit : Edit) (content : Page) (cut : Cut)
        (living : List Transaction)
        → is_plain edit ≡ true
        → IsEditIn shape file past owner page edit content cut living → EditIsMeant shape file past owner page edit content cut living }
{}

/// A mark of a number is meant: as dead it is the rollback of its owner, or is not read; as committed it is
/// not read while its owner is living, and otherwise its commit is in the cut.
pub fn marks_are_meant()
    ensures { (shape : Shape) (file : View) (past : History) (owner page number : ℕ) (state : State) (content : Page) (cut : Cut) (living : List Transaction)
        → IsEditIn shape file past owner page (Mark number state) content cut living
        → EditIsMeant shape file past owner page (Mark number state) content cut living }
{
    marks_are_not_read();
    marks_commit();
}

/// Neither an edit that changes no cell and no state nor a mark is a command that may not come.
pub fn plain_edits_and_marks_come()
    ensures plain { (shape : Shape) (file : View) (past : History) (owner page : ℕ) (edit : Edit) → is_plain edit ≡ true
        → MayAllCome (machine_of shape file past) (commands_made shape (world_of shape file past) owner page edit) }
    ensures mark { (shape : Shape) (file : View) (past : History) (owner page number : ℕ) (state : State)
        → MayAllCome (machine_of shape file past) (commands_made shape (world_of shape file past) owner page (Mark number state)) }
{}

/// An edit whose commands may come keeps all that is simulated, if it is meant in each view of a cut that
/// sees it.
pub fn edits_keep_simulation()
    ensures { (shape : Shape) (file : View) (before : History) (owner page : ℕ) (edit : Edit) (landed : Bool)
        → IsLegal shape file (happens owner (Local (local.Edit page edit)) landed ∷ before)
        → IsWhole (scene_of shape file before) → IsSimulated (scene_of shape file before)
        → ((content : Page) (cut : Cut) (living : List Transaction)
        → IsEditIn shape file before owner page edit content cut living
        → EditIsMeant shape file before owner page edit content cut living)
        → MayAllCome (machine_of shape file before) (commands_made shape (world_of shape file before) owner page edit)
        → IsSimulated (scene_of shape file (happens owner (Local (local.Edit page edit)) landed ∷ before)) }
{}
