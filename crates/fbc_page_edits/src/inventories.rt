//! Pages that are taken, freed or made. None of these functions does anything.

ghost use Rattle.std.specs.Prelude.{ℕ};
ghost use Rattle.fbc_kinds.specs.View.{View};
ghost use Rattle.fbc_kinds.specs.declared.edits.Edit.TheVariants.{Format, FreePage, TakePage};
ghost use Rattle.fbc_kinds.specs.declared.pages.Page.{Page};
ghost use Rattle.fbc_kinds.specs.declared.shapes.Shape.{Shape};
ghost use Rattle.fbc_page_edits.specs.Allowed.{IsAllowedEdit};
ghost use Rattle.fbc_page_edits.specs.Edited.{with_page};
ghost use Rattle.fbc_page_edits.specs.Kept.{FreedPageKeeps, MadePageKeeps, TakenPageKeeps};

/// A page is marked as taken. Where the page inventory is reached, and the page is not, it is lost
/// until it is named. The view means the same.
pub fn taken_pages_keep_views()
    ensures { (shape : Shape) (view : View) (number page : ℕ) (content : Page)
        → IsAllowedEdit shape view number (TakePage page) content
        → TakenPageKeeps view number page (with_page view number content) }
{}

/// A page that is not reached is marked as free, and is lost no more. The view means the same.
pub fn freed_pages_keep_views()
    ensures { (shape : Shape) (view : View) (number page : ℕ) (content : Page)
        → IsAllowedEdit shape view number (FreePage page) content
        → FreedPageKeeps view number page (with_page view number content) }
{}

/// A page that is not reached is made anew. The view means the same.
pub fn formats_keep_views()
    ensures { (shape : Shape) (view : View) (number kind relation sequence : ℕ) (content : Page)
        → IsAllowedEdit shape view number (Format kind number relation sequence) content
        → MadePageKeeps view (with_page view number content) }
{}
