//! Versions that are put into cells without a new link. None of these functions does anything.

ghost use Rattle.std.specs.Prelude.{ℕ};
ghost use Rattle.fbc_kinds.specs.View.{View};
ghost use Rattle.fbc_kinds.specs.declared.pages.Cell.{Cell};
ghost use Rattle.fbc_kinds.specs.declared.pages.Page.{Page};
ghost use Rattle.fbc_kinds.specs.declared.shapes.Shape.{Shape};
ghost use Rattle.fbc_version_edits.specs.Forms.{IsFirst, IsMove, IsOwnAgain};
ghost use Rattle.fbc_page_edits.specs.Edited.{with_page};
ghost use Rattle.fbc_version_edits.specs.Puts.{IsPutIn};
ghost use Rattle.fbc_version_edits.specs.Kept.{FirstVersionKeeps, MovedVersionKeeps, OwnVersionKeeps};

/// A row gets its first version.
pub fn first_versions_keep_views()
    ensures { (shape : Shape) (view : View) (number cell : ℕ) (new : Cell) (content : Page)
        → IsPutIn shape view number cell new content
        → IsFirst view number cell new
        → FirstVersionKeeps view number cell new (with_page view number content) }
{}

/// The version that a transaction made is replaced by one of its own.
pub fn own_versions_keep_views()
    ensures { (shape : Shape) (view : View) (number cell : ℕ) (new : Cell) (content : Page)
        → IsPutIn shape view number cell new content
        → (own : IsOwnAgain view number cell new)
        → OwnVersionKeeps view number cell own.old new (with_page view number content) }
{}

/// A back value is put into an empty cell. Until a version names it, it is lost.
pub fn moved_versions_keep_views()
    ensures { (shape : Shape) (view : View) (number cell : ℕ) (new : Cell) (content : Page)
        → IsPutIn shape view number cell new content
        → IsMove view number cell new
        → MovedVersionKeeps view number cell new (with_page view number content) }
{}
