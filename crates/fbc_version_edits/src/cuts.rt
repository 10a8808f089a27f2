//! Versions that lose their links. None of these functions does anything.

ghost use Rattle.std.specs.Prelude.{ℕ};
ghost use Rattle.fbc_kinds.specs.View.{View};
ghost use Rattle.fbc_kinds.specs.declared.pages.Cell.{Cell};
ghost use Rattle.fbc_kinds.specs.declared.pages.Page.{Page};
ghost use Rattle.fbc_kinds.specs.declared.shapes.Shape.{Shape};
ghost use Rattle.fbc_version_edits.specs.Forms.{IsCut};
ghost use Rattle.fbc_page_edits.specs.Edited.{with_page};
ghost use Rattle.fbc_version_edits.specs.Puts.{IsPutIn};
ghost use Rattle.fbc_version_edits.specs.Kept.{CutKeeps};

/// A version loses its link. A chain that goes through its cell ends with it, and all others stay.
pub fn cuts_keep_views()
    ensures { (shape : Shape) (view : View) (number cell : ℕ) (new : Cell) (content : Page)
        → IsPutIn shape view number cell new content
        → IsCut view number cell new
        → CutKeeps view number cell new (with_page view number content) }
{}
