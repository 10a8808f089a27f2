//! Edits of the header of a sound view. None of these functions does anything.

ghost use Rattle.std.specs.Prelude.{ℕ};
ghost use Rattle.fbc_kinds.specs.View.{View};
ghost use Rattle.fbc_kinds.specs.declared.edits.Edit.TheVariants.{AddInventory, AddPointer, AddTip, SetNext};
ghost use Rattle.fbc_kinds.specs.declared.pages.Page.{Page};
ghost use Rattle.fbc_kinds.specs.declared.shapes.Shape.{Shape};
ghost use Rattle.fbc_page_edits.specs.Allowed.{IsAllowedEdit};
ghost use Rattle.fbc_page_edits.specs.Edited.{with_page};
ghost use Rattle.fbc_page_edits.specs.Kept.{MadePageKeeps, NamedPageKeeps, RaisedNumberKeeps};

/// The next number is raised.
pub fn raised_numbers_keep_views()
    ensures { (shape : Shape) (view : View) (number next : ℕ) (content : Page)
        → IsAllowedEdit shape view number (SetNext next) content
        → RaisedNumberKeeps view (with_page view number content) }
{}

/// A transaction inventory page is named. It is reached where the header is, and the view means the
/// same.
pub fn added_tips_keep_views()
    ensures { (shape : Shape) (view : View) (number page : ℕ) (content : Page)
        → IsAllowedEdit shape view number (AddTip page) content
        → NamedPageKeeps view number page (with_page view number content) }
{}

/// A pointer page is named. It is reached where the header is, and the view means the same.
pub fn added_pointers_keep_views()
    ensures { (shape : Shape) (view : View) (number relation page : ℕ) (content : Page)
        → IsAllowedEdit shape view number (AddPointer relation page) content
        → NamedPageKeeps view number page (with_page view number content) }
{}

/// A page inventory is counted. The view means the same.
pub fn added_inventories_keep_views()
    ensures { (shape : Shape) (view : View) (number : ℕ) (content : Page)
        → IsAllowedEdit shape view number AddInventory content
        → MadePageKeeps view (with_page view number content) }
{}
