//! Versions of open transactions that are put, which are commands of the machine too. None of these
//! functions does anything.

ghost use Rattle.fbc_kinds.specs.Machine.{Machine, is_held};
ghost use Rattle.fbc_kinds.specs.Meaning.{meaning_with};
ghost use Rattle.fbc_kinds.specs.View.{View};
ghost use Rattle.fbc_kinds.specs.declared.commands.Command.TheVariants.{Insert};
ghost use Rattle.fbc_kinds.specs.declared.pages.Cell.{Cell};
ghost use Rattle.fbc_kinds.specs.declared.pages.Page.{Page};
ghost use Rattle.fbc_kinds.specs.declared.replies.Reply.TheVariants.{Row};
ghost use Rattle.fbc_kinds.specs.declared.shapes.Shape.{Shape};
ghost use Rattle.fbc_kinds.specs.declared.snapshots.Transaction.{Transaction};
ghost use Rattle.fbc_meanings.specs.Beside.{HasNoRowAt, IsCarriedOut};
ghost use Rattle.fbc_meanings.specs.Reading.{IsChangeCarriedOut, StillReadsAs};
ghost use Rattle.fbc_version_edits.specs.Forms.{IsFirst, IsOver, IsOwnAgain};
ghost use Rattle.fbc_version_edits.specs.Open.{IsClosed, IsMaker};
ghost use Rattle.fbc_version_edits.specs.Puts.{IsPutIn};
ghost use Rattle.fbc_runs.specs.Orderly.{OwnersDiffer};
ghost use Rattle.fbc_runs.specs.Reading.{ReadsAs};
ghost use Rattle.fbc_page_edits.specs.Edited.{with_page};
ghost use Rattle.fbc_page_edits.specs.Facing.{IsRowAt};
ghost use Rattle.std.specs.Prelude.{◌≡◌, ℕ, List, true};

/// A row's first version is an insertion by the transaction of its number.
pub fn first_versions_insert()
    ensures { (shape : Shape) (view : View) (number cell : ℕ) (new : Cell) (content : Page)
        → (living : List Transaction) (m : Machine) (t : Transaction) (relation row : ℕ)
        → IsPutIn shape view number cell new content → IsFirst view number cell new
        → IsMaker living t new → IsRowAt view relation row number cell
        → OwnersDiffer m.transactions → ReadsAs (meaning_with living view) m
        → IsCarriedOut m (Insert t.owner relation row new.value) (Row row) (meaning_with living (with_page view number content)) }
{}

/// A new version over one that the snapshot holds, and that no open transaction made, is an update, or a
/// deletion.
pub fn new_versions_change()
    ensures { (shape : Shape) (view : View) (number cell : ℕ) (new : Cell) (content : Page)
        → (living : List Transaction) (m : Machine) (t : Transaction) (relation row : ℕ)
        → (put : IsPutIn shape view number cell new content) → (over : IsOver view put.page.relation number cell new)
        → IsMaker living t new → is_held t.snapshot over.old.number ≡ true → IsClosed living over.old.number
        → IsRowAt view relation row number cell
        → OwnersDiffer m.transactions → ReadsAs (meaning_with living view) m
        → IsChangeCarriedOut m t.owner relation row new (meaning_with living (with_page view number content)) }
{}

/// A version in place of the transaction's own is an update, or a deletion: its snapshot holds its own
/// number.
pub fn own_versions_change()
    ensures { (shape : Shape) (view : View) (number cell : ℕ) (new : Cell) (content : Page)
        → (living : List Transaction) (m : Machine) (t : Transaction) (relation row : ℕ)
        → IsPutIn shape view number cell new content → IsOwnAgain view number cell new
        → IsMaker living t new → is_held t.snapshot t.number ≡ true → IsRowAt view relation row number cell
        → OwnersDiffer m.transactions → ReadsAs (meaning_with living view) m
        → IsChangeCarriedOut m t.owner relation row new (meaning_with living (with_page view number content)) }
{}

/// A version that is put where no row has its top is not read.
pub fn versions_off_rows_are_not_read()
    ensures first { (shape : Shape) (view : View) (number cell : ℕ) (new : Cell) (content : Page)
        → (living : List Transaction) (m : Machine) → IsPutIn shape view number cell new content
        → IsFirst view number cell new → HasNoRowAt view number cell
        → StillReadsAs living view (with_page view number content) m }
    ensures own { (shape : Shape) (view : View) (number cell : ℕ) (new : Cell) (content : Page)
        → (living : List Transaction) (m : Machine) → IsPutIn shape view number cell new content
        → IsOwnAgain view number cell new → HasNoRowAt view number cell
        → StillReadsAs living view (with_page view number content) m }
    ensures over { (shape : Shape) (view : View) (number cell : ℕ) (new : Cell) (content : Page)
        → (living : List Transaction) (m : Machine) → (put : IsPutIn shape view number cell new content)
        → IsOver view put.page.relation number cell new → HasNoRowAt view number cell
        → StillReadsAs living view (with_page view number content) m }
{}
