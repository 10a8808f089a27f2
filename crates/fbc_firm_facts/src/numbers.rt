//! Numbers that are over, in every view that has an owner's drafts. None of these functions does anything.

ghost use Rattle.fbc_closed_cuts.specs.Firm.{IsFirm};
ghost use Rattle.fbc_notes.specs.DeadNumbers.{is_dead_in};
ghost use Rattle.fbc_kinds.specs.Sound.{IsSound};
ghost use Rattle.fbc_kinds.specs.View.{View};
ghost use Rattle.fbc_kinds.specs.declared.shapes.Shape.{Shape};
ghost use Rattle.fbc_legal.specs.Legal.{IsLegal};
ghost use Rattle.fbc_numbers.specs.Numbers.{is_committed_in};
ghost use Rattle.fbc_page_edits.specs.Edited.{IsOfShape};
ghost use Rattle.fbc_world.specs.History.{History, Moment};
ghost use Rattle.fbc_world.specs.World.{world_of};
ghost use Rattle.std.specs.Prelude.{◌≡◌, ◌≢◌, ◌∷◌, ℕ, true};

use fbc_soundness::legal_histories_are_whole;

/// A number that is committed in every view that has an owner's drafts stays so: through every event of
/// another, and through every event of the owner that it outlives.
pub fn commits_stay_firm()
    ensures others { (shape : Shape) (file : View) (before : History) (moment : Moment) (owner number : ℕ)
        → IsOfShape shape file → IsSound file
        → IsLegal shape file (moment ∷ before) → moment.event.actor ≢ owner
        → IsFirm (world_of shape file before) owner (λ view. is_committed_in view number)
        → IsFirm (world_of shape file (moment ∷ before)) owner (λ view. is_committed_in view number) }
    ensures own { (shape : Shape) (file : View) (before : History) (moment : Moment) (number : ℕ)
        → IsOfShape shape file → IsSound file
        → IsLegal shape file (moment ∷ before) → (world_of shape file (moment ∷ before)).is_alive moment.event.actor ≡ true
        → IsFirm (world_of shape file before) moment.event.actor (λ view. is_committed_in view number)
        → IsFirm (world_of shape file (moment ∷ before)) moment.event.actor (λ view. is_committed_in view number) }
{
    legal_histories_are_whole();
}

/// So does a number that is dead.
pub fn dead_numbers_stay_firm()
    ensures others { (shape : Shape) (file : View) (before : History) (moment : Moment) (owner number : ℕ)
        → IsOfShape shape file → IsSound file
        → IsLegal shape file (moment ∷ before) → moment.event.actor ≢ owner
        → IsFirm (world_of shape file before) owner (λ view. is_dead_in view number)
        → IsFirm (world_of shape file (moment ∷ before)) owner (λ view. is_dead_in view number) }
    ensures own { (shape : Shape) (file : View) (before : History) (moment : Moment) (number : ℕ)
        → IsOfShape shape file → IsSound file
        → IsLegal shape file (moment ∷ before) → (world_of shape file (moment ∷ before)).is_alive moment.event.actor ≡ true
        → IsFirm (world_of shape file before) moment.event.actor (λ view. is_dead_in view number)
        → IsFirm (world_of shape file (moment ∷ before)) moment.event.actor (λ view. is_dead_in view number) }
{
    legal_histories_are_whole();
}
