//! Links that drafts have lost. None of these functions does anything.

ghost use Rattle.fbc_closed_cuts.specs.Cut.{Cut, IsClosedCut, view};
ghost use Rattle.fbc_closed_cuts.specs.Views.{view_stamps};
ghost use Rattle.fbc_kinds.specs.View.{View, cell_in};
ghost use Rattle.fbc_kinds.specs.declared.pages.Cell.{Cell};
ghost use Rattle.fbc_kinds.specs.declared.shapes.Shape.{Shape};
ghost use Rattle.fbc_legal.specs.Legal.{IsLegal};
ghost use Rattle.fbc_legal.specs.Rows.{IsSettled};
ghost use Rattle.fbc_legal.specs.Scene.{Scene, born_at, newest_at, scene_of};
ghost use Rattle.fbc_origins.specs.Owed.{IsInOrder};
ghost use Rattle.fbc_origins.specs.Cuts.{CutsAreSettled};
ghost use Rattle.fbc_world.specs.History.{History, Moment};
ghost use Rattle.std.specs.Prelude.{◌≡◌, ◌≢◌, ◌∷◌, [], ℕ, Some};

/// Before the first event the newest pages are the file, and no link is lost.
pub fn first_cuts_are_settled()
    ensures { (shape : Shape) (file : View) → CutsAreSettled (scene_of shape file []) }
{}

/// After each legal event, where all was in order before: where a version has its link in the file
/// alone, the link was cut, and the version's number is settled still.
pub fn events_keep_cuts_settled()
    ensures { (shape : Shape) (file : View) (before : History) (moment : Moment)
        → IsLegal shape file (moment ∷ before) → IsInOrder (scene_of shape file before)
        → CutsAreSettled (scene_of shape file before) → CutsAreSettled (scene_of shape file (moment ∷ before)) }
{}

/// So it is with each view: where a version has its link there, and not in the newest pages, its
/// number is settled.
pub fn cuts_are_settled_in_views()
    ensures { (at : Scene) → IsInOrder at → CutsAreSettled at → (cut : Cut) → IsClosedCut at.world cut → (page cell : ℕ) (seen new : Cell)
        → cell_in (view at.world cut page) cell ≡ Some seen → cell_in (newest_at at page) cell ≡ Some new
        → (view_stamps at.world at.stamps cut page).born cell ≡ born_at at page cell
        → seen.back_page ≢ 0 → new.back_page ≡ 0 → IsSettled at new.number }
{}

/// A number that is settled stays so with each legal event.
pub fn settled_numbers_stay_settled()
    ensures { (shape : Shape) (file : View) (before : History) (moment : Moment) (number : ℕ)
        → IsLegal shape file (moment ∷ before) → IsInOrder (scene_of shape file before)
        → IsSettled (scene_of shape file before) number → IsSettled (scene_of shape file (moment ∷ before)) number }
{}
