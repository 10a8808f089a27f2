//! Stamps of pages, and what they tell. None of these functions does anything.

ghost use Rattle.fbc_closed_cuts.specs.Upheld.{IsUpheldThroughout};
ghost use Rattle.fbc_kinds.specs.View.{View};
ghost use Rattle.fbc_kinds.specs.declared.shapes.Shape.{Shape};
ghost use Rattle.fbc_legal.specs.Legal.{IsLegal};
ghost use Rattle.fbc_legal.specs.Scene.{scene_of};
ghost use Rattle.fbc_origins.specs.Origins.{CellsKeepVersions, EditsStay, StampsArePast};
ghost use Rattle.fbc_world.specs.History.{History};

/// After every history stamps are numbers of events before.
pub fn stamps_are_past()
    ensures { (shape : Shape) (file : View) (history : History) → StampsArePast (scene_of shape file history) }
{}

/// What the file has taken in, the newest pages have.
pub fn edits_stay()
    ensures { (shape : Shape) (file : View) (history : History) → IsLegal shape file history → EditsStay (scene_of shape file history) }
{}

/// After histories that are upheld at each of their moments a cell with the same stamp in the file and
/// in the newest pages holds one version.
pub fn cells_keep_versions()
    ensures { (shape : Shape) (file : View) (history : History) → IsLegal shape file history
        → IsUpheldThroughout shape file history → CellsKeepVersions (scene_of shape file history) }
{}
