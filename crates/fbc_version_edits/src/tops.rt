//! New versions in front of rows, and versions that are taken back. None of these functions does
//! anything.

ghost use Rattle.std.specs.Prelude.{ℕ};
ghost use Rattle.fbc_kinds.specs.View.{View};
ghost use Rattle.fbc_kinds.specs.declared.pages.Cell.{Cell};
ghost use Rattle.fbc_kinds.specs.declared.pages.Page.{Page};
ghost use Rattle.fbc_kinds.specs.declared.shapes.Shape.{Shape};
ghost use Rattle.fbc_version_edits.specs.Forms.{IsBackout, IsOver};
ghost use Rattle.fbc_page_edits.specs.Edited.{with_page};
ghost use Rattle.fbc_version_edits.specs.Puts.{IsPutIn};
ghost use Rattle.fbc_version_edits.specs.Kept.{BackoutKeeps, NewVersionKeeps};

/// A row gets a new version, over one that has moved to where the new one's link leads.
pub fn new_versions_keep_views()
    ensures { (shape : Shape) (view : View) (number cell : ℕ) (new : Cell) (content : Page)
        → (put : IsPutIn shape view number cell new content)
        → (over : IsOver view put.page.relation number cell new)
        → NewVersionKeeps view number cell over.old new (with_page view number content) }
{}

/// The newest version of a row is taken back: the one below becomes the primary, with its link or with
/// none.
pub fn backouts_keep_views()
    ensures { (shape : Shape) (view : View) (number cell : ℕ) (new : Cell) (content : Page)
        → IsPutIn shape view number cell new content
        → (backout : IsBackout view number cell new)
        → BackoutKeeps view number cell backout.old new (with_page view number content) }
{}
