//! What stands where a transaction may begin: no commit is out of the file, and the number that begins
//! is a new one. None of these functions does anything.

ghost use Rattle.fbc_numbers.specs.Numbers.{IsNumbered, is_committed_in};
ghost use Rattle.std.specs.Prelude.{◌≡◌, ◌≤◌, ◌<◌, ℕ, Some};
ghost use Rattle.fbc_closed_cuts.specs.Cut.{Cut, view};
ghost use Rattle.fbc_closed_cuts.specs.Firm.{HasOwnDrafts};
ghost use Rattle.fbc_closed_cuts.specs.Upheld.{IsUpheld};
ghost use Rattle.fbc_kinds.specs.View.{View, next_of};
ghost use Rattle.fbc_kinds.specs.declared.shapes.Shape.{Shape};
ghost use Rattle.fbc_kinds.specs.declared.snapshots.Transaction.{Transaction};
ghost use Rattle.fbc_legal.specs.Guards.{MayBegin};
ghost use Rattle.fbc_legal.specs.Legal.{IsLegal};
ghost use Rattle.fbc_legal.specs.Scene.{Scene, scene_of};
ghost use Rattle.fbc_world.specs.History.{History};
ghost use Rattle.fbc_world.specs.World.{newest_of, world_of};

/// Where a transaction may begin, the newest pages show the same numbers as committed as the file does.
pub fn begins_follow_all_commits()
    ensures { (shape : Shape) (file : View) (past : History) (owner number word other : ℕ) → IsLegal shape file past
        → IsUpheld (scene_of shape file past) → IsNumbered (scene_of shape file past) → MayBegin (scene_of shape file past) owner number word
        → is_committed_in (newest_of (world_of shape file past)) other ≡ is_committed_in (world_of shape file past).kept other }
{}

/// The number that may begin is greater than each open one.
pub fn begun_numbers_are_greatest()
    ensures { (at : Scene) (owner number word other : ℕ) (t : Transaction) → IsUpheld at → IsNumbered at → MayBegin at owner number word
        → at.world.transaction other ≡ Some t → t.number < number }
{}

/// No view has given it out.
pub fn begun_numbers_are_new()
    ensures { (at : Scene) (owner number word : ℕ) (cut : Cut) → IsUpheld at → MayBegin at owner number word
        → next_of (view at.world cut) ≤ number }
{}

/// Who may begin sees the newest header in each view that has all its drafts.
pub fn headers_of_begins_are_newest()
    ensures { (at : Scene) (owner number word : ℕ) (cut : Cut) → IsUpheld at → MayBegin at owner number word → HasOwnDrafts at.world owner cut
        → view at.world cut 0 ≡ newest_of at.world 0 }
{}

/// An open number was given out, or is the next one, in each view that has all drafts of its owner.
pub fn open_numbers_are_within()
    ensures { (at : Scene) (owner : ℕ) (t : Transaction) (cut : Cut) → IsUpheld at → IsNumbered at → at.world.transaction owner ≡ Some t
        → HasOwnDrafts at.world owner cut → t.number ≤ next_of (view at.world cut) }
{}
