//! What every legal history that is upheld at each of its moments keeps of numbers. None of these
//! functions does anything.

ghost use Rattle.fbc_numbers.specs.Numbers.{CommitsAreMarked, CommitsGrow, MarksAreTrue, NumbersDiffer, OpenNumbersStand, OpensAreUncommitted, SnapshotsAreTrue};
ghost use Rattle.fbc_closed_cuts.specs.Upheld.{IsUpheldThroughout};
ghost use Rattle.fbc_kinds.specs.View.{View};
ghost use Rattle.fbc_kinds.specs.declared.shapes.Shape.{Shape};
ghost use Rattle.fbc_legal.specs.Legal.{IsLegal};
ghost use Rattle.fbc_world.specs.History.{History};
ghost use Rattle.fbc_world.specs.World.{world_of};

/// What is committed in the view of a closed cut is committed in that of each wider one.
pub fn commits_grow_with_cuts()
    ensures { (shape : Shape) (file : View) (history : History) → IsLegal shape file history → IsUpheldThroughout shape file history
        → CommitsGrow (world_of shape file history) }
{}

/// An open transaction is its living owner's. Its number was given out, or is the next one, which the
/// owner alone may give out.
pub fn open_transactions_stand()
    ensures { (shape : Shape) (file : View) (history : History) → IsLegal shape file history → IsUpheldThroughout shape file history
        → OpenNumbersStand (world_of shape file history) }
{}

/// Open transactions of different owners have different numbers.
pub fn numbers_of_open_transactions_differ()
    ensures { (shape : Shape) (file : View) (history : History) → IsLegal shape file history → IsUpheldThroughout shape file history
        → NumbersDiffer (world_of shape file history) }
{}

/// An open transaction whose owner has not marked it is not committed in the newest pages.
pub fn unmarked_transactions_are_uncommitted()
    ensures { (shape : Shape) (file : View) (history : History) → IsLegal shape file history → IsUpheldThroughout shape file history
        → OpensAreUncommitted (world_of shape file history) }
{}

/// A number that is committed in the newest pages, and not in the file, is an open one that its owner
/// has marked.
pub fn commits_out_of_the_file_are_marked()
    ensures { (shape : Shape) (file : View) (history : History) → IsLegal shape file history → IsUpheldThroughout shape file history
        → CommitsAreMarked (world_of shape file history) }
{}

/// The draft with a mark is the only one of its owner. The file names its page for the marked number,
/// and the draft shows that number as committed.
pub fn marks_are_true()
    ensures { (shape : Shape) (file : View) (history : History) → IsLegal shape file history → IsUpheldThroughout shape file history
        → MarksAreTrue shape (world_of shape file history) }
{}

/// A snapshot holds its own number, and smaller ones that are committed in the file.
pub fn snapshots_are_true()
    ensures { (shape : Shape) (file : View) (history : History) → IsLegal shape file history → IsUpheldThroughout shape file history
        → SnapshotsAreTrue (world_of shape file history) }
{}
