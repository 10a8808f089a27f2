//! Edits by one view that sees them. These functions do nothing.

ghost use Rattle.fbc_closed_cuts.specs.Owed.{KeepsViewsSound};
ghost use Rattle.fbc_soundness.specs.Seen.{KeepsViews};
ghost use Rattle.fbc_kinds.specs.View.{View};
ghost use Rattle.fbc_kinds.specs.declared.edits.Edit.{Edit};
ghost use Rattle.fbc_kinds.specs.declared.shapes.Shape.{Shape};
ghost use Rattle.fbc_world.specs.History.{History};

/// An edit that keeps each view that sees it leaves it sound.
pub fn kept_views_are_sound()
    ensures { (shape : Shape) (file : View) (edit : Edit) → KeepsViews shape file edit → (past : History) → KeepsViewsSound shape file past edit }
{}
