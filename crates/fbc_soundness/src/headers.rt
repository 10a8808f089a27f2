//! Edits of the header. None of these functions does anything.

ghost use Rattle.std.specs.Prelude.{ℕ};
ghost use Rattle.fbc_soundness.specs.Seen.{KeepsViews};
ghost use Rattle.fbc_kinds.specs.View.{View};
ghost use Rattle.fbc_kinds.specs.declared.edits.Edit.TheVariants.{AddInventory, AddPointer, AddTip, SetNext};
ghost use Rattle.fbc_kinds.specs.declared.shapes.Shape.{Shape};

/// The next number is raised.
pub fn set_next_keeps_views()
    ensures { (shape : Shape) (file : View) (next : ℕ) → KeepsViews shape file (SetNext next) }
{}

/// A transaction inventory page is named.
pub fn add_tip_keeps_views()
    ensures { (shape : Shape) (file : View) (page : ℕ) → KeepsViews shape file (AddTip page) }
{}

/// A pointer page is named.
pub fn add_pointer_keeps_views()
    ensures { (shape : Shape) (file : View) (relation page : ℕ) → KeepsViews shape file (AddPointer relation page) }
{}

/// A page inventory is counted.
pub fn add_inventory_keeps_views()
    ensures { (shape : Shape) (file : View) → KeepsViews shape file AddInventory }
{}
