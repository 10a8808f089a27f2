//! Every legal history beside the machine. None of these functions does anything.

ghost use Rattle.fbc_kinds.specs.Sound.{IsSound};
ghost use Rattle.fbc_kinds.specs.View.{View};
ghost use Rattle.fbc_kinds.specs.declared.shapes.Shape.{Shape};
ghost use Rattle.fbc_legal.specs.Legal.{IsLegal};
ghost use Rattle.fbc_legal.specs.Scene.{scene_of};
ghost use Rattle.fbc_simulation.specs.Simulated.{IsSimulated};
ghost use Rattle.fbc_soundness.specs.Whole.{IsWhole};
ghost use Rattle.fbc_page_edits.specs.Edited.{IsOfShape};
ghost use Rattle.fbc_world.specs.History.{History, Moment};
ghost use Rattle.std.specs.Prelude.{◌∷◌};

use crate::acts::{acts_keep_simulation, first_machines_are_simulated};
use crate::cells::{
    changes_come, cleared_cells_are_meant, cleared_cells_come, put_cells_are_meant,
};
use crate::edits::{
    edits_keep_simulation, marks_are_meant, plain_edits_and_marks_come, plain_edits_are_meant,
};
use fbc_soundness::legal_histories_are_whole;

/// Each legal event keeps the machine beside the history.
pub fn events_keep_simulation()
    ensures { (shape : Shape) (file : View) (before : History) (moment : Moment)
        → IsLegal shape file (moment ∷ before) → IsWhole (scene_of shape file before)
        → IsSimulated (scene_of shape file before) → IsSimulated (scene_of shape file (moment ∷ before)) }
{
    acts_keep_simulation();
    edits_keep_simulation();
    plain_edits_are_meant();
    marks_are_meant();
    put_cells_are_meant();
    cleared_cells_are_meant();
    changes_come();
    cleared_cells_come();
    plain_edits_and_marks_come();
}

/// After every legal history over a sound file the one-thread machine stands beside it.
pub fn legal_histories_are_simulated()
    ensures { (shape : Shape) (file : View) (history : History) → IsOfShape shape file → IsSound file
        → IsLegal shape file history → IsSimulated (scene_of shape file history) }
{
    first_machines_are_simulated();
    events_keep_simulation();
    legal_histories_are_whole();
}
