//! Versions that are taken back. This function does nothing.

ghost use Rattle.fbc_closed_cuts.specs.Cut.{Cut};
ghost use Rattle.fbc_kinds.specs.View.{View};
ghost use Rattle.fbc_kinds.specs.declared.edits.Edit.TheVariants.{PutCell};
ghost use Rattle.fbc_kinds.specs.declared.pages.Cell.{Cell};
ghost use Rattle.fbc_kinds.specs.declared.pages.Page.{Page};
ghost use Rattle.fbc_kinds.specs.declared.shapes.Shape.{Shape};
ghost use Rattle.fbc_kinds.specs.declared.snapshots.Transaction.{Transaction};
ghost use Rattle.fbc_legal.specs.Rows.{IsBackout};
ghost use Rattle.fbc_legal.specs.Scene.{scene_of};
ghost use Rattle.fbc_simulation.specs.EditIn.{EditIsMeant, IsEditIn};
ghost use Rattle.fbc_world.specs.History.{History};
ghost use Rattle.std.specs.Prelude.{List, ℕ};

use fbc_meanings::backouts_are_not_read;

/// A version that is taken back is not read, and is no command: its number is dead. Where the one below
/// has lost its link in the newest pages, that was cut of a settled version.
pub fn backouts_are_meant()
    ensures { (shape : Shape) (file : View) (past : History) (owner page cell : ℕ) (new : Cell) (content : Page) (cut : Cut) (living : List Transaction)
        → IsEditIn shape file past owner page (PutCell cell new) content cut living → IsBackout (scene_of shape file past) page cell new
        → EditIsMeant shape file past owner page (PutCell cell new) content cut living }
{
    backouts_are_not_read();
}
