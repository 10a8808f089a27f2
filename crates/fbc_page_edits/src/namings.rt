//! Data pages that a pointer page comes to name, or names no more. None of these functions does
//! anything.

ghost use Rattle.std.specs.Prelude.{◌≡◌, ℕ, List, Some};
ghost use Rattle.fbc_kinds.specs.Meaning.{MeanTheSame, meaning_with};
ghost use Rattle.fbc_kinds.specs.Reach.{ReachesPage};
ghost use Rattle.fbc_kinds.specs.Sound.{IsSound};
ghost use Rattle.fbc_kinds.specs.View.{View, named_in};
ghost use Rattle.fbc_kinds.specs.declared.edits.Edit.TheVariants.{Name, Unname};
ghost use Rattle.fbc_kinds.specs.declared.pages.Page.{Page};
ghost use Rattle.fbc_kinds.specs.declared.shapes.Shape.{Shape};
ghost use Rattle.fbc_kinds.specs.declared.snapshots.Transaction.{Transaction};
ghost use Rattle.fbc_page_edits.specs.Alike.{KeepsLostPages, KeepsLostPagesBut, ReadAlike};
ghost use Rattle.fbc_page_edits.specs.Allowed.{IsAllowedEdit};
ghost use Rattle.fbc_page_edits.specs.Edited.{with_page};

/// A data page is named. It is reached where the pointer page is, and the view means the same.
pub fn named_pages_keep_views()
    ensures sound { (shape : Shape) (view : View) (number slot page : ℕ) (content : Page) → IsAllowedEdit shape view number (Name slot page) content
        → IsSound (with_page view number content) }
    ensures alike { (shape : Shape) (view : View) (number slot page : ℕ) (content : Page) → IsAllowedEdit shape view number (Name slot page) content
        → ReadAlike view (with_page view number content) }
    ensures meaning { (shape : Shape) (view : View) (number slot page : ℕ) (content : Page) → IsAllowedEdit shape view number (Name slot page) content
        → (living : List Transaction) → MeanTheSame (meaning_with living view) (meaning_with living (with_page view number content)) }
    ensures reached { (shape : Shape) (view : View) (number slot page : ℕ) (content : Page) → IsAllowedEdit shape view number (Name slot page) content
        → ReachesPage view number → ReachesPage (with_page view number content) page }
    ensures lost { (shape : Shape) (view : View) (number slot page : ℕ) (content : Page) → IsAllowedEdit shape view number (Name slot page) content
        → KeepsLostPagesBut page view (with_page view number content) }
{}

/// A data page without versions is named no more, and is not reached. The view means the same.
pub fn unnamed_pages_keep_views()
    ensures sound { (shape : Shape) (view : View) (number slot : ℕ) (content : Page) → IsAllowedEdit shape view number (Unname slot) content
        → IsSound (with_page view number content) }
    ensures alike { (shape : Shape) (view : View) (number slot : ℕ) (content : Page) → IsAllowedEdit shape view number (Unname slot) content
        → ReadAlike view (with_page view number content) }
    ensures meaning { (shape : Shape) (view : View) (number slot : ℕ) (content : Page) → IsAllowedEdit shape view number (Unname slot) content
        → (living : List Transaction) → MeanTheSame (meaning_with living view) (meaning_with living (with_page view number content)) }
    ensures unreached { (shape : Shape) (view : View) (number slot page : ℕ) (content : Page) → IsAllowedEdit shape view number (Unname slot) content
        → ReachesPage view number → named_in (view number) slot ≡ Some page → ¬ ReachesPage (with_page view number content) page }
    ensures lost { (shape : Shape) (view : View) (number slot : ℕ) (content : Page) → IsAllowedEdit shape view number (Unname slot) content
        → KeepsLostPages view (with_page view number content) }
{}
