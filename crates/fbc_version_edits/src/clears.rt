//! Cells that are cleared. None of these functions does anything.

ghost use Rattle.std.specs.Prelude.{ℕ};
ghost use Rattle.fbc_kinds.specs.View.{View};
ghost use Rattle.fbc_kinds.specs.declared.pages.Page.{Page};
ghost use Rattle.fbc_kinds.specs.declared.shapes.Shape.{Shape};
ghost use Rattle.fbc_page_edits.specs.Edited.{with_page};
ghost use Rattle.fbc_version_edits.specs.Forms.{IsDeletedRow, IsLoneVersion, IsUnnamedValue};
ghost use Rattle.fbc_version_edits.specs.Puts.{IsClearIn};
ghost use Rattle.fbc_version_edits.specs.Kept.{ClearedDeletionKeeps, ClearedValueKeeps, ClearedVersionKeeps};

/// The only version of a row is taken back.
pub fn cleared_versions_keep_views()
    ensures { (shape : Shape) (view : View) (number cell : ℕ) (content : Page)
        → IsClearIn shape view number cell content
        → (lone : IsLoneVersion view number cell)
        → ClearedVersionKeeps view number cell lone.old (with_page view number content) }
{}

/// The deletion of a row is cleared, and with it all that was below.
pub fn cleared_deletions_keep_views()
    ensures { (shape : Shape) (view : View) (number cell : ℕ) (content : Page)
        → IsClearIn shape view number cell content
        → (deleted : IsDeletedRow view number cell)
        → ClearedDeletionKeeps view number cell deleted.old (with_page view number content) }
{}

/// A back value that no version names is cleared, and is lost no more.
pub fn cleared_values_keep_views()
    ensures { (shape : Shape) (view : View) (number cell : ℕ) (content : Page)
        → IsClearIn shape view number cell content
        → IsUnnamedValue view number cell
        → ClearedValueKeeps view number cell (with_page view number content) }
{}
