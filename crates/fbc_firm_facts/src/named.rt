//! Data pages that are named, in every view that has an owner's drafts. None of these functions does
//! anything.

ghost use Rattle.fbc_closed_cuts.specs.Firm.{IsFirm};
ghost use Rattle.fbc_notes.specs.RowNames.{names_row};
ghost use Rattle.fbc_kinds.specs.Sound.{IsSound};
ghost use Rattle.fbc_kinds.specs.View.{View};
ghost use Rattle.fbc_kinds.specs.declared.shapes.Shape.{Shape};
ghost use Rattle.fbc_legal.specs.Legal.{IsLegal};
ghost use Rattle.fbc_page_edits.specs.Edited.{IsOfShape};
ghost use Rattle.fbc_world.specs.History.{History, Moment};
ghost use Rattle.fbc_world.specs.World.{world_of};
ghost use Rattle.std.specs.Prelude.{◌≡◌, ◌≢◌, ◌∷◌, ℕ, true};

use fbc_soundness::legal_histories_are_whole;

/// A data page that every view names which has an owner's drafts, and that the owner has pinned, stays
/// so named, by the same pointer page, through every event of another.
pub fn pinned_pages_stay_named()
    ensures { (shape : Shape) (file : View) (before : History) (moment : Moment) (owner relation sequence pointer page : ℕ)
        → IsOfShape shape file → IsSound file
        → IsLegal shape file (moment ∷ before) → moment.event.actor ≢ owner
        → (world_of shape file before).is_pinned owner page ≡ true
        → IsFirm (world_of shape file before) owner (names_row shape relation sequence pointer page)
        → IsFirm (world_of shape file (moment ∷ before)) owner (names_row shape relation sequence pointer page) }
{
    legal_histories_are_whole();
}
