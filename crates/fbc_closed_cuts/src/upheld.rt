//! The invariant of legal histories. None of these functions does anything.

ghost use Rattle.fbc_closed_cuts.specs.Edited.{after_edit};
ghost use Rattle.fbc_closed_cuts.specs.Owed.{KeepsViewsSound};
ghost use Rattle.fbc_closed_cuts.specs.Upheld.{IsUpheld};
ghost use Rattle.fbc_closed_cuts.specs.Views.{is_edit};
ghost use Rattle.std.specs.Prelude.{◌≡◌, ◌∷◌, [], ℕ, Bool, false};
ghost use Rattle.fbc_kinds.specs.Sound.{IsSound};
ghost use Rattle.fbc_kinds.specs.View.{View};
ghost use Rattle.fbc_kinds.specs.declared.edits.Edit.{Edit};
ghost use Rattle.fbc_kinds.specs.declared.shapes.Shape.{Shape};
ghost use Rattle.fbc_legal.specs.Legal.{IsLegal};
ghost use Rattle.fbc_legal.specs.Scene.{scene_of};
ghost use Rattle.fbc_page_edits.specs.Edited.{IsOfShape};
ghost use Rattle.fbc_world.specs.History.{History, Moment, happens};
ghost use Rattle.fbc_world.specs.declared.events.Act.TheVariants.{Local};
ghost use Rattle.fbc_world.specs.declared.events.LocalEvent.TheVariants as local;

/// Over a sound file the empty history is upheld.
pub fn first_views_are_upheld()
    ensures { (shape : Shape) (file : View) → IsOfShape shape file → IsSound file → IsUpheld (scene_of shape file []) }
{}

/// Each legal event but an edit upholds what is upheld: writes of both outcomes, deaths, purges,
/// openings, and every other event that edits nothing.
pub fn acts_uphold_what_is_upheld()
    ensures { (shape : Shape) (file : View) (before : History) (moment : Moment)
        → IsLegal shape file (moment ∷ before) → is_edit moment.event.act ≡ false
        → IsUpheld (scene_of shape file before) → IsUpheld (scene_of shape file (moment ∷ before)) }
{}

/// A legal edit upholds what is upheld, if it leaves the views that see it sound.
pub fn edits_uphold_what_is_upheld()
    ensures { (shape : Shape) (file : View) (before : History) (owner page : ℕ) (edit : Edit) (landed : Bool)
        → IsLegal shape file (happens owner (Local (local.Edit page edit)) landed ∷ before)
        → IsUpheld (scene_of shape file before) → KeepsViewsSound shape file before edit
        → IsUpheld (after_edit (scene_of shape file before) owner page edit landed) }
{}
