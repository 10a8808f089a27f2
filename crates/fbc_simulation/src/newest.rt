//! The newest pages, where every open transaction goes on. None of these functions does anything.

ghost use Rattle.fbc_kinds.specs.Meaning.{meaning_with};
ghost use Rattle.fbc_kinds.specs.View.{View};
ghost use Rattle.fbc_kinds.specs.declared.shapes.Shape.{Shape};
ghost use Rattle.fbc_kinds.specs.declared.snapshots.Transaction.{Transaction};
ghost use Rattle.fbc_legal.specs.Scene.{newest_at, scene_of};
ghost use Rattle.fbc_numbers.specs.Numbers.{OpenNumbersStand};
ghost use Rattle.fbc_runs.specs.Reading.{ReadsAs};
ghost use Rattle.fbc_simulation.specs.Beside.{AreOpenIn, machine_of};
ghost use Rattle.fbc_simulation.specs.Newest.{all_drafts, opens_at};
ghost use Rattle.fbc_simulation.specs.Simulated.{IsSimulated};
ghost use Rattle.fbc_soundness.specs.Whole.{IsWhole};
ghost use Rattle.fbc_world.specs.History.{History};
ghost use Rattle.fbc_world.specs.World.{world_of};
ghost use Rattle.std.specs.Prelude.{◌≡◌, ◌↔◌, ℕ, Contains, Some};

/// The open transactions of the living are all that there are, and the cut of every draft has all theirs.
pub fn all_opens_are_open()
    ensures listed { (shape : Shape) (file : View) (past : History) (t : Transaction) → OpenNumbersStand (world_of shape file past)
        → Contains (opens_at (scene_of shape file past)) t ↔ ((world_of shape file past).transaction t.owner ≡ Some t) }
    ensures opens { (shape : Shape) (file : View) (past : History) → OpenNumbersStand (world_of shape file past)
        → AreOpenIn (world_of shape file past) (all_drafts (world_of shape file past)) (opens_at (scene_of shape file past)) }
{}

/// The newest pages, where all of these go on, read as the machine itself.
pub fn newest_pages_are_meant()
    ensures { (shape : Shape) (file : View) (past : History) → IsWhole (scene_of shape file past) → IsSimulated (scene_of shape file past)
        → ReadsAs (meaning_with (opens_at (scene_of shape file past)) (newest_at (scene_of shape file past))) (machine_of shape file past) }
{}
