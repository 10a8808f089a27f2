//! Cells that are cleared while the view's meaning reads as before. None of these functions does
//! anything.

ghost use Rattle.fbc_kinds.specs.Machine.{Machine};
ghost use Rattle.fbc_kinds.specs.View.{View};
ghost use Rattle.fbc_kinds.specs.declared.pages.Page.{Page};
ghost use Rattle.fbc_kinds.specs.declared.shapes.Shape.{Shape};
ghost use Rattle.fbc_kinds.specs.declared.snapshots.Transaction.{Transaction};
ghost use Rattle.fbc_meanings.specs.Reading.{StillReadsAs};
ghost use Rattle.fbc_version_edits.specs.Forms.{IsDeletedRow, IsLoneVersion, IsUnnamedValue};
ghost use Rattle.fbc_version_edits.specs.Open.{AreOpen, IsClosed, IsSettled};
ghost use Rattle.fbc_version_edits.specs.Puts.{IsClearIn};
ghost use Rattle.fbc_runs.specs.Orderly.{OwnersDiffer};
ghost use Rattle.fbc_page_edits.specs.Edited.{with_page};
ghost use Rattle.std.specs.Prelude.{ℕ, List};

/// The only version of a row, of no open transaction, is taken back.
pub fn cleared_versions_are_not_read()
    ensures { (shape : Shape) (view : View) (number cell : ℕ) (content : Page)
        → (living : List Transaction) (m : Machine) → IsClearIn shape view number cell content
        → (lone : IsLoneVersion view number cell) → IsClosed living lone.old.number
        → OwnersDiffer m.transactions
        → StillReadsAs living view (with_page view number content) m }
{}

/// A settled deletion is cleared: the machine may still have it.
pub fn cleared_deletions_are_not_read()
    ensures { (shape : Shape) (view : View) (number cell : ℕ) (content : Page)
        → (living : List Transaction) (m : Machine) → IsClearIn shape view number cell content
        → (deleted : IsDeletedRow view number cell) → AreOpen living → IsSettled view living deleted.old.number
        → OwnersDiffer m.transactions
        → StillReadsAs living view (with_page view number content) m }
{}

/// A back value is cleared that no version names any more.
pub fn cleared_values_are_not_read()
    ensures { (shape : Shape) (view : View) (number cell : ℕ) (content : Page)
        → (living : List Transaction) (m : Machine) → IsClearIn shape view number cell content → IsUnnamedValue view number cell
        → StillReadsAs living view (with_page view number content) m }
{}
