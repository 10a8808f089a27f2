//! Pages that are taken, freed or made. None of these functions does anything.

ghost use Rattle.std.specs.Prelude.{ℕ};
ghost use Rattle.fbc_soundness.specs.Seen.{KeepsViews};
ghost use Rattle.fbc_kinds.specs.View.{View};
ghost use Rattle.fbc_kinds.specs.declared.edits.Edit.TheVariants.{Format, FreePage, TakePage};
ghost use Rattle.fbc_kinds.specs.declared.shapes.Shape.{Shape};

/// A page is marked as taken.
pub fn take_page_keeps_views()
    ensures { (shape : Shape) (file : View) (page : ℕ) → KeepsViews shape file (TakePage page) }
{}

/// A page that is named nowhere is marked as free.
pub fn free_page_keeps_views()
    ensures { (shape : Shape) (file : View) (page : ℕ) → KeepsViews shape file (FreePage page) }
{}

/// A page that is named nowhere is made anew.
pub fn format_keeps_views()
    ensures { (shape : Shape) (file : View) (kind page relation sequence : ℕ) → KeepsViews shape file (Format kind page relation sequence) }
{}
