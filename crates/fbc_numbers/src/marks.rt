//! Marks of numbers. None of these functions does anything.

ghost use Rattle.fbc_numbers.specs.Numbers.{IsNumbered};
ghost use Rattle.fbc_world.specs.History.{History};
ghost use Rattle.std.specs.Prelude.{ℕ};
ghost use Rattle.fbc_closed_cuts.specs.Owed.{KeepsViewsSound, SeesEdit};
ghost use Rattle.fbc_kinds.specs.View.{View};
ghost use Rattle.fbc_kinds.specs.declared.edits.Edit.TheVariants.{Mark};
ghost use Rattle.fbc_kinds.specs.declared.pages.State.TheVariants.{Committed, Dead};
ghost use Rattle.fbc_kinds.specs.declared.shapes.Shape.{Shape};
ghost use Rattle.fbc_legal.specs.Guards.{GuardOfEdit};
ghost use Rattle.fbc_legal.specs.Scene.{Scene, scene_of};
ghost use Rattle.fbc_legal.specs.Stamps.{Stamps};
ghost use Rattle.fbc_version_edits.specs.Forms.{AllowsMark};

/// Each view that comes to hold the page with the mark allows the mark: the number was begun, and is
/// not committed there.
pub fn views_allow_dead_marks()
    ensures { (at : Scene) (owner page number : ℕ) (seen : View) (stamps : ℕ → Stamps) → IsNumbered at → GuardOfEdit at owner page (Mark number Dead)
        → SeesEdit at owner page seen stamps → AllowsMark seen number Dead }
{}

/// A mark as dead leaves each view that sees it sound: no number is taken back that a view has as
/// committed.
pub fn dead_marks_keep_views_sound()
    ensures { (shape : Shape) (file : View) (past : History) (number : ℕ)
        → IsNumbered (scene_of shape file past) → KeepsViewsSound shape file past (Mark number Dead) }
{}

/// So does a mark as committed.
pub fn commit_marks_keep_views_sound()
    ensures { (shape : Shape) (file : View) (past : History) (number : ℕ) → KeepsViewsSound shape file past (Mark number Committed) }
{}
