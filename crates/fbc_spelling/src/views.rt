//! The bytes of a file give one view.

ghost use Rattle.std.specs.Prelude.{◌≡◌, ℕ, List};
ghost use Rattle.fbc_kinds.specs.File.{IsViewOf};
ghost use Rattle.fbc_kinds.specs.Limits.{IsPageSize};
ghost use Rattle.fbc_kinds.specs.View.{View};
ghost use Rattle.fbc_kinds.specs.declared.shapes.Shape.{Shape};

/// Bytes give a view of a file of any shape, and any two views that they give show the same under
/// each number.
pub fn bytes_give_one_view()
    ensures given { (shape : Shape) (bytes : List ℕ)
        → IsPageSize shape.size
        → (view : View) × IsViewOf shape bytes view }
    ensures one { (shape : Shape) (bytes : List ℕ) (view other : View)
        → IsPageSize shape.size
        → IsViewOf shape bytes view
        → IsViewOf shape bytes other
        → (number : ℕ) → view number ≡ other number }
{}
