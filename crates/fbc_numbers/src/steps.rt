//! What is kept of numbers, all at once. None of these functions does anything.

ghost use Rattle.fbc_numbers.specs.Numbers.{IsNumbered};
ghost use Rattle.std.specs.Prelude.{◌∷◌, []};
ghost use Rattle.fbc_closed_cuts.specs.Upheld.{IsUpheld, IsUpheldThroughout};
ghost use Rattle.fbc_kinds.specs.View.{View};
ghost use Rattle.fbc_kinds.specs.declared.shapes.Shape.{Shape};
ghost use Rattle.fbc_legal.specs.Legal.{IsLegal};
ghost use Rattle.fbc_legal.specs.Scene.{scene_of};
ghost use Rattle.fbc_world.specs.History.{History, Moment};

/// Before the first event all of it holds: no transaction is open.
pub fn first_numbers_are_kept()
    ensures { (shape : Shape) (file : View) → IsNumbered (scene_of shape file []) }
{}

/// Each legal event after an upheld history keeps all of it: edits, writes of both outcomes, deaths,
/// begins, and every other event.
pub fn events_keep_numbers()
    ensures { (shape : Shape) (file : View) (before : History) (moment : Moment) → IsLegal shape file (moment ∷ before)
        → IsUpheld (scene_of shape file before) → IsNumbered (scene_of shape file before) → IsNumbered (scene_of shape file (moment ∷ before)) }
{}

/// Every legal history that is upheld at each of its moments keeps all of it.
pub fn legal_histories_keep_numbers()
    ensures { (shape : Shape) (file : View) (history : History) → IsLegal shape file history → IsUpheldThroughout shape file history
        → IsNumbered (scene_of shape file history) }
{}
