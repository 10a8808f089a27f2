//! Numbers of transactions that get another state. None of these functions does anything.

ghost use Rattle.std.specs.Prelude.{ℕ};
ghost use Rattle.fbc_kinds.specs.View.{View};
ghost use Rattle.fbc_kinds.specs.declared.edits.Edit.TheVariants.{Mark};
ghost use Rattle.fbc_kinds.specs.declared.pages.Page.{Page};
ghost use Rattle.fbc_kinds.specs.declared.pages.State.{State};
ghost use Rattle.fbc_kinds.specs.declared.shapes.Shape.{Shape};
ghost use Rattle.fbc_version_edits.specs.Forms.{IsAdmittedEdit};
ghost use Rattle.fbc_page_edits.specs.Edited.{with_page};
ghost use Rattle.fbc_version_edits.specs.Kept.{MarkKeeps};

/// A number that was begun gets another state. It has that state where its page is reached.
pub fn marks_keep_views()
    ensures { (shape : Shape) (view : View) (number marked : ℕ) (state : State) (content : Page)
        → IsAdmittedEdit shape view number (Mark marked state) content
        → MarkKeeps view number marked state (with_page view number content) }
{}
