//! What is committed in each view, from what is kept of numbers. None of these functions does
//! anything.

ghost use Rattle.fbc_numbers.specs.Numbers.{IsNumbered, is_committed_in};
ghost use Rattle.std.specs.Prelude.{◌≡◌, ◌<◌, ◌⊎◌, ℕ, None, Some, false, true};
ghost use Rattle.fbc_closed_cuts.specs.Cut.{Cut, IsClosedCut, view};
ghost use Rattle.fbc_kinds.specs.Machine.{is_held};
ghost use Rattle.fbc_kinds.specs.declared.snapshots.Transaction.{Transaction};
ghost use Rattle.fbc_legal.specs.Scene.{Scene};
ghost use Rattle.fbc_world.specs.World.{newest_of};

/// A number that is not committed in the newest pages, as one that is marked dead, is so in no view.
/// An open one is so in no view while its owner has not marked it.
pub fn uncommitted_numbers_are_so_in_each_view()
    ensures newest { (at : Scene) (number : ℕ) (cut : Cut) → IsNumbered at → IsClosedCut at.world cut
        → is_committed_in (newest_of at.world) number ≡ false → is_committed_in (view at.world cut) number ≡ false }
    ensures open_one { (at : Scene) (owner : ℕ) (t : Transaction) (cut : Cut) → IsNumbered at → IsClosedCut at.world cut
        → at.world.transaction owner ≡ Some t → at.world.marked owner ≡ None → is_committed_in (view at.world cut) t.number ≡ false }
{}

/// A number that an open snapshot holds is its own, or a smaller one that is committed in each view.
pub fn held_numbers_are_committed_in_each_view()
    ensures { (at : Scene) (owner number : ℕ) (t : Transaction) (cut : Cut) → IsNumbered at → IsClosedCut at.world cut
        → at.world.transaction owner ≡ Some t → is_held t.snapshot number ≡ true
        → (number ≡ t.number) ⊎ ((is_committed_in (view at.world cut) number ≡ true) × (number < t.number)) }
{}
