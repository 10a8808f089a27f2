//! Versions that are put while the view's meaning reads as before. None of these functions does anything.

ghost use Rattle.fbc_kinds.specs.Machine.{Machine};
ghost use Rattle.fbc_kinds.specs.View.{View};
ghost use Rattle.fbc_kinds.specs.declared.pages.Cell.{Cell};
ghost use Rattle.fbc_kinds.specs.declared.pages.Page.{Page};
ghost use Rattle.fbc_kinds.specs.declared.shapes.Shape.{Shape};
ghost use Rattle.fbc_kinds.specs.declared.snapshots.Transaction.{Transaction};
ghost use Rattle.fbc_meanings.specs.Reading.{StillReadsAs};
ghost use Rattle.fbc_version_edits.specs.Forms.{IsBackout, IsCut, IsFirst, IsMove, IsOver, IsOwnAgain, IsUncommitted, Stands};
ghost use Rattle.fbc_page_edits.specs.Facing.{NameTheSame};
ghost use Rattle.fbc_version_edits.specs.Open.{AreOpen, IsClosed, IsSettled};
ghost use Rattle.fbc_version_edits.specs.Puts.{IsPutIn};
ghost use Rattle.fbc_runs.specs.Orderly.{OwnersDiffer};
ghost use Rattle.fbc_page_edits.specs.Edited.{with_page};
ghost use Rattle.std.specs.Prelude.{ℕ, List};

/// A version is put whose number is neither committed nor that of an open transaction: as a row's first,
/// in place of one of the same number, or as a new top over another.
pub fn uncommitted_versions_are_not_read()
    ensures first { (shape : Shape) (view : View) (number cell : ℕ) (new : Cell) (content : Page)
        → (living : List Transaction) (m : Machine) → IsPutIn shape view number cell new content
        → IsFirst view number cell new → IsClosed living new.number → IsUncommitted view new
        → OwnersDiffer m.transactions
        → StillReadsAs living view (with_page view number content) m }
    ensures own { (shape : Shape) (view : View) (number cell : ℕ) (new : Cell) (content : Page)
        → (living : List Transaction) (m : Machine) → IsPutIn shape view number cell new content
        → IsOwnAgain view number cell new → IsClosed living new.number → IsUncommitted view new
        → OwnersDiffer m.transactions
        → StillReadsAs living view (with_page view number content) m }
    ensures over { (shape : Shape) (view : View) (number cell : ℕ) (new : Cell) (content : Page)
        → (living : List Transaction) (m : Machine) → (put : IsPutIn shape view number cell new content)
        → IsOver view put.page.relation number cell new → IsClosed living new.number → IsUncommitted view new
        → OwnersDiffer m.transactions
        → StillReadsAs living view (with_page view number content) m }
{}

/// A back value is put that no version names yet.
pub fn moves_are_not_read()
    ensures { (shape : Shape) (view : View) (number cell : ℕ) (new : Cell) (content : Page)
        → (living : List Transaction) (m : Machine) → IsPutIn shape view number cell new content → IsMove view number cell new
        → StillReadsAs living view (with_page view number content) m }
{}

/// A version of no open transaction is taken back. The next one keeps its link, or else is settled.
pub fn backouts_are_not_read()
    ensures whole { (shape : Shape) (view : View) (number cell : ℕ) (new : Cell) (content : Page)
        → (living : List Transaction) (m : Machine) → IsPutIn shape view number cell new content
        → (backout : IsBackout view number cell new) → IsClosed living backout.old.number
        → ((below : Cell) → Stands view backout.old.back_page backout.old.back_cell below → NameTheSame below new)
        → OwnersDiffer m.transactions
        → StillReadsAs living view (with_page view number content) m }
    ensures alone { (shape : Shape) (view : View) (number cell : ℕ) (new : Cell) (content : Page)
        → (living : List Transaction) (m : Machine) → IsPutIn shape view number cell new content
        → (backout : IsBackout view number cell new) → AreOpen living → IsClosed living backout.old.number
        → IsSettled view living new.number → OwnersDiffer m.transactions
        → StillReadsAs living view (with_page view number content) m }
{}

/// What is below a settled version is cut off.
pub fn cuts_are_not_read()
    ensures { (shape : Shape) (view : View) (number cell : ℕ) (new : Cell) (content : Page)
        → (living : List Transaction) (m : Machine) → IsPutIn shape view number cell new content
        → IsCut view number cell new → AreOpen living → IsSettled view living new.number
        → OwnersDiffer m.transactions
        → StillReadsAs living view (with_page view number content) m }
{}
