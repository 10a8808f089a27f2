//! What the machine beside a history keeps while nobody edits. None of these functions does anything.

ghost use Rattle.fbc_closed_cuts.specs.Views.{is_edit};
ghost use Rattle.fbc_kinds.specs.Sound.{IsSound};
ghost use Rattle.fbc_kinds.specs.View.{View};
ghost use Rattle.fbc_kinds.specs.declared.shapes.Shape.{Shape};
ghost use Rattle.fbc_legal.specs.Legal.{IsLegal};
ghost use Rattle.fbc_legal.specs.Scene.{scene_of};
ghost use Rattle.fbc_simulation.specs.Simulated.{IsSimulated};
ghost use Rattle.fbc_soundness.specs.Whole.{IsWhole};
ghost use Rattle.fbc_page_edits.specs.Edited.{IsOfShape};
ghost use Rattle.fbc_world.specs.History.{History, Moment};
ghost use Rattle.std.specs.Prelude.{◌≡◌, ◌∷◌, [], false};

/// Before the first event the machine is what the file means, and all views are the file.
pub fn first_machines_are_simulated()
    ensures { (shape : Shape) (file : View) → IsOfShape shape file → IsSound file → IsSimulated (scene_of shape file []) }
{}

/// Every legal event but an edit keeps the machine beside the history: begins, writes of both outcomes,
/// deaths, and all that has no command.
pub fn acts_keep_simulation()
    ensures { (shape : Shape) (file : View) (before : History) (moment : Moment)
        → IsLegal shape file (moment ∷ before) → is_edit moment.event.act ≡ false
        → IsWhole (scene_of shape file before) → IsSimulated (scene_of shape file before) → IsSimulated (scene_of shape file (moment ∷ before)) }
{}
