//! The shape of a view's file. None of these functions does anything.

ghost use Rattle.std.specs.Prelude.{ℕ};
ghost use Rattle.fbc_kinds.specs.Edits.{IsEdit};
ghost use Rattle.fbc_kinds.specs.View.{View};
ghost use Rattle.fbc_kinds.specs.declared.edits.Edit.{Edit};
ghost use Rattle.fbc_kinds.specs.declared.pages.Page.{Page};
ghost use Rattle.fbc_kinds.specs.declared.shapes.Shape.{Shape};
ghost use Rattle.fbc_page_edits.specs.Allowed.{Fits};
ghost use Rattle.fbc_page_edits.specs.Edited.{IsOfShape, with_page};

/// Each edit that fits leaves a view one of a file of its shape.
pub fn edits_keep_shapes()
    ensures { (shape : Shape) (view : View) (number : ℕ) (edit : Edit) (content : Page)
        → IsOfShape shape view → IsEdit edit → Fits shape edit (view number) content
        → IsOfShape shape (with_page view number content) }
{}
