//! Data pages that a pointer page comes to name, or names no more. None of these functions does
//! anything.

ghost use Rattle.std.specs.Prelude.{ℕ};
ghost use Rattle.fbc_soundness.specs.Seen.{KeepsViews};
ghost use Rattle.fbc_kinds.specs.View.{View};
ghost use Rattle.fbc_kinds.specs.declared.edits.Edit.TheVariants.{Name, Unname};
ghost use Rattle.fbc_kinds.specs.declared.shapes.Shape.{Shape};

/// A data page is named.
pub fn name_keeps_views()
    ensures { (shape : Shape) (file : View) (slot page : ℕ) → KeepsViews shape file (Name slot page) }
{}

/// A data page without versions is named no more.
pub fn unname_keeps_views()
    ensures { (shape : Shape) (file : View) (slot : ℕ) → KeepsViews shape file (Unname slot) }
{}
