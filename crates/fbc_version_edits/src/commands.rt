//! Changes of rows by open transactions, which are commands of the machine that the view means. None of
//! these functions does anything.

ghost use Rattle.std.specs.Prelude.{◌≡◌, ℕ, List, true};
ghost use Rattle.fbc_kinds.specs.Machine.{is_held, machine_step};
ghost use Rattle.fbc_kinds.specs.Meaning.{MeanTheSame, meaning_with};
ghost use Rattle.fbc_kinds.specs.View.{View};
ghost use Rattle.fbc_kinds.specs.declared.commands.Command.TheVariants.{Insert};
ghost use Rattle.fbc_kinds.specs.declared.pages.Cell.{Cell};
ghost use Rattle.fbc_kinds.specs.declared.pages.Page.{Page};
ghost use Rattle.fbc_kinds.specs.declared.shapes.Shape.{Shape};
ghost use Rattle.fbc_kinds.specs.declared.snapshots.Transaction.{Transaction};
ghost use Rattle.fbc_version_edits.specs.Forms.{IsFirst, IsOver, IsOwnAgain};
ghost use Rattle.fbc_page_edits.specs.Edited.{with_page};
ghost use Rattle.fbc_page_edits.specs.Facing.{IsRowAt};
ghost use Rattle.fbc_version_edits.specs.Kept.{IsInsertionDone, MeansRowChange};
ghost use Rattle.fbc_version_edits.specs.Open.{IsChangeDone, IsClosed, IsMaker};
ghost use Rattle.fbc_version_edits.specs.Puts.{IsPutIn};

/// A row's first version is an insertion by the transaction of its number.
pub fn first_versions_are_insertions()
    ensures { (shape : Shape) (view : View) (number cell : ℕ) (new : Cell) (content : Page)
        → IsPutIn shape view number cell new content → IsFirst view number cell new
        → (living : List Transaction) (t : Transaction) → IsMaker living t new
        → (relation row : ℕ) → IsRowAt view relation row number cell
        → MeanTheSame (machine_step (meaning_with living view) (Insert t.owner relation row new.value))
        (meaning_with living (with_page view number content)) }
{}

/// A new version over one that the snapshot holds is an update, or a deletion.
pub fn new_versions_are_changes()
    ensures { (shape : Shape) (view : View) (number cell : ℕ) (new : Cell) (content : Page)
        → (put : IsPutIn shape view number cell new content) → (over : IsOver view put.page.relation number cell new)
        → (living : List Transaction) (t : Transaction) → IsMaker living t new → is_held t.snapshot over.old.number ≡ true
        → (relation row : ℕ) → IsRowAt view relation row number cell
        → MeansRowChange living t.owner relation row new view (with_page view number content) }
{}

/// A version in place of the transaction's own is an update, or a deletion: its snapshot holds its own
/// number.
pub fn own_versions_are_changes()
    ensures { (shape : Shape) (view : View) (number cell : ℕ) (new : Cell) (content : Page)
        → IsPutIn shape view number cell new content → IsOwnAgain view number cell new
        → (living : List Transaction) (t : Transaction) → IsMaker living t new → is_held t.snapshot t.number ≡ true
        → (relation row : ℕ) → IsRowAt view relation row number cell
        → MeansRowChange living t.owner relation row new view (with_page view number content) }
{}

/// The insertion of a first version may come, and is answered by the row's number.
pub fn insertions_may_come()
    ensures { (shape : Shape) (view : View) (number cell : ℕ) (new : Cell) (content : Page)
        → IsPutIn shape view number cell new content → IsFirst view number cell new
        → (living : List Transaction) (t : Transaction) → IsMaker living t new
        → (relation row : ℕ) → IsRowAt view relation row number cell
        → IsInsertionDone (meaning_with living view) t.owner relation row new.value }
{}

/// The change of a row may come, and is done, where the snapshot holds the newest version, and no other
/// open transaction made it.
pub fn changes_may_come()
    ensures new { (shape : Shape) (view : View) (number cell : ℕ) (new : Cell) (content : Page)
        → (put : IsPutIn shape view number cell new content) → (over : IsOver view put.page.relation number cell new)
        → (living : List Transaction) (t : Transaction) → IsMaker living t new
        → is_held t.snapshot over.old.number ≡ true → IsClosed living over.old.number
        → (relation row : ℕ) → IsRowAt view relation row number cell
        → IsChangeDone (meaning_with living view) t.owner relation row }
    ensures own { (shape : Shape) (view : View) (number cell : ℕ) (new : Cell) (content : Page)
        → IsPutIn shape view number cell new content → IsOwnAgain view number cell new
        → (living : List Transaction) (t : Transaction) → IsMaker living t new → is_held t.snapshot t.number ≡ true
        → (relation row : ℕ) → IsRowAt view relation row number cell
        → IsChangeDone (meaning_with living view) t.owner relation row }
{}
