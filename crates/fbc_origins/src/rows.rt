//! Rows of the newest pages, and versions that are reached no more. None of these functions does
//! anything.

ghost use Rattle.fbc_closed_cuts.specs.Upheld.{IsUpheld};
ghost use Rattle.fbc_kinds.specs.View.{View};
ghost use Rattle.fbc_kinds.specs.declared.shapes.Shape.{Shape};
ghost use Rattle.fbc_legal.specs.Legal.{IsLegal};
ghost use Rattle.fbc_legal.specs.Scene.{scene_of};
ghost use Rattle.fbc_origins.specs.Origins.{IsOriginal, UnlinkedAreGone};
ghost use Rattle.fbc_origins.specs.Owed.{IsInOrder, MakeNoLinks};
ghost use Rattle.fbc_origins.specs.Rows.{RowsAreNamed, RowsStand, SettledRowsAreNamed};
ghost use Rattle.fbc_world.specs.History.{History, Moment};
ghost use Rattle.std.specs.Prelude.{◌∷◌, []};

/// Before the first event the file names every row that a view shows.
pub fn first_rows_are_named()
    ensures { (shape : Shape) (file : View) → RowsAreNamed (scene_of shape file []) }
{}

/// Before the first event no transaction is open, and the file names every row that a view shows.
pub fn first_rows_stand()
    ensures { (shape : Shape) (file : View) → RowsStand (scene_of shape file []) }
{}

/// After each legal event, where all was in order before: where a view names a data page in which it
/// shows a settled top, the file names that page by the same pointer page; where it shows a top of an
/// open number, the file does, or the drafts that name the page are the number's owner's.
pub fn events_keep_rows_named()
    ensures { (shape : Shape) (file : View) (before : History) (moment : Moment)
        → IsLegal shape file (moment ∷ before) → IsInOrder (scene_of shape file before)
        → RowsStand (scene_of shape file before) → IsUpheld (scene_of shape file (moment ∷ before))
        → RowsStand (scene_of shape file (moment ∷ before)) }
{}

/// Where the file names the rows with settled tops that views show, every view names those of the
/// newest pages.
pub fn named_rows_are_in_every_view()
    ensures { (shape : Shape) (file : View) (history : History) → IsInOrder (scene_of shape file history) → RowsAreNamed (scene_of shape file history)
        → SettledRowsAreNamed (scene_of shape file history) }
{}

/// After a legal event no view that has the edit which made a back value unreached reaches it, where all
/// was in order before, rows were named, and edits of what is no cell add no link.
pub fn unlinked_values_are_gone()
    ensures { (shape : Shape) (file : View) (before : History) (moment : Moment)
        → IsLegal shape file (moment ∷ before) → IsInOrder (scene_of shape file before)
        → RowsAreNamed (scene_of shape file before) → MakeNoLinks (scene_of shape file before)
        → UnlinkedAreGone (scene_of shape file (moment ∷ before)) }
{}

/// So what stamps tell of cells is kept by each legal event, under the same premises.
pub fn events_keep_origins()
    ensures { (shape : Shape) (file : View) (before : History) (moment : Moment)
        → IsLegal shape file (moment ∷ before) → IsInOrder (scene_of shape file before)
        → RowsAreNamed (scene_of shape file before) → MakeNoLinks (scene_of shape file before) → IsOriginal (scene_of shape file (moment ∷ before)) }
{}
