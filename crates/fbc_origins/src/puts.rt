//! Versions that are put into cells, and cells that are cleared. None of these functions does anything of
//! its own.

ghost use Rattle.fbc_closed_cuts.specs.Owed.{KeepsViewsSound, SeesEdit};
ghost use Rattle.fbc_kinds.specs.View.{View};
ghost use Rattle.fbc_kinds.specs.declared.edits.Edit.TheVariants.{ClearCell, PutCell};
ghost use Rattle.fbc_kinds.specs.declared.pages.Cell.{Cell};
ghost use Rattle.fbc_kinds.specs.declared.shapes.Shape.{Shape};
ghost use Rattle.fbc_legal.specs.Guards.{GuardOfEdit};
ghost use Rattle.fbc_legal.specs.Scene.{Scene, scene_of};
ghost use Rattle.fbc_legal.specs.Stamps.{Stamps};
ghost use Rattle.fbc_origins.specs.Owed.{IsInOrder};
ghost use Rattle.fbc_version_edits.specs.Forms.{AllowsClear, AllowsPutOn};
ghost use Rattle.fbc_world.specs.History.{History};
ghost use Rattle.std.specs.Prelude.{ℕ};

use fbc_version_edits::edits_keep_views_sound;

/// Where all is in order, each view that comes to hold an edited cell allows what is put there.
pub fn puts_are_allowed()
    ensures { (at : Scene) (owner page cell : ℕ) (content : Cell) (seen : View) (stamps : ℕ → Stamps) → IsInOrder at
        → GuardOfEdit at owner page (PutCell cell content) → SeesEdit at owner page seen stamps → AllowsPutOn seen page cell content (seen page) }
{}

/// Likewise each view that comes to hold a cleared cell allows that.
pub fn clears_are_allowed()
    ensures { (at : Scene) (owner page cell : ℕ) (seen : View) (stamps : ℕ → Stamps) → IsInOrder at
        → GuardOfEdit at owner page (ClearCell cell) → SeesEdit at owner page seen stamps → AllowsClear seen page cell }
{}

/// Where all is in order, a version that is put leaves each view that sees it sound.
pub fn put_cell_keeps_views_sound()
    ensures { (shape : Shape) (file : View) (past : History) (cell : ℕ) (content : Cell)
        → IsInOrder (scene_of shape file past) → KeepsViewsSound shape file past (PutCell cell content) }
{
    edits_keep_views_sound();
}

/// So does a cell that is cleared.
pub fn clear_cell_keeps_views_sound()
    ensures { (shape : Shape) (file : View) (past : History) (cell : ℕ) → IsInOrder (scene_of shape file past)
        → KeepsViewsSound shape file past (ClearCell cell) }
{
    edits_keep_views_sound();
}
