//! The number of each open transaction stands apart from all that is over: its owner has it in EX, no
//! view shows it as dead, the file does not show it as committed, and its snapshot holds it. None of
//! these functions does anything.

ghost use Rattle.fbc_numbers.specs.Numbers.{IsNumbered};
ghost use Rattle.fbc_numbers.specs.Opens.{OpensStandApart};
ghost use Rattle.std.specs.Prelude.{◌≡◌, ◌∷◌, [], ℕ, Some};
ghost use Rattle.fbc_closed_cuts.specs.Upheld.{IsUpheld, IsUpheldThroughout};
ghost use Rattle.fbc_kinds.specs.Chain.{state_of};
ghost use Rattle.fbc_kinds.specs.View.{View};
ghost use Rattle.fbc_kinds.specs.declared.pages.State.TheVariants.{Dead};
ghost use Rattle.fbc_kinds.specs.declared.shapes.Shape.{Shape};
ghost use Rattle.fbc_kinds.specs.declared.snapshots.Transaction.{Transaction};
ghost use Rattle.fbc_legal.specs.Legal.{IsLegal};
ghost use Rattle.fbc_legal.specs.Scene.{Scene, scene_of};
ghost use Rattle.fbc_world.specs.History.{History, Moment};
ghost use Rattle.fbc_world.specs.World.{newest_of};

/// Before the first event no transaction is open.
pub fn first_opens_stand_apart()
    ensures { (shape : Shape) (file : View) → OpensStandApart (scene_of shape file []) }
{}

/// Each legal event after an upheld history keeps open numbers apart: edits, writes of both outcomes,
/// deaths, begins, lowerings, and every other event.
pub fn events_keep_opens_apart()
    ensures { (shape : Shape) (file : View) (before : History) (moment : Moment) → IsLegal shape file (moment ∷ before)
        → IsUpheld (scene_of shape file before) → IsNumbered (scene_of shape file before) → OpensStandApart (scene_of shape file before)
        → OpensStandApart (scene_of shape file (moment ∷ before)) }
{}

/// Every legal history that is upheld at each of its moments keeps them apart.
pub fn legal_histories_keep_opens_apart()
    ensures { (shape : Shape) (file : View) (history : History) → IsLegal shape file history → IsUpheldThroughout shape file history
        → OpensStandApart (scene_of shape file history) }
{}

/// The newest pages show no open number as dead.
pub fn open_numbers_are_not_dead_in_the_newest_pages()
    ensures { (at : Scene) (owner : ℕ) (t : Transaction) → OpensStandApart at → at.world.transaction owner ≡ Some t
        → ¬ (state_of (newest_of at.world) t.number ≡ Dead) }
{}
