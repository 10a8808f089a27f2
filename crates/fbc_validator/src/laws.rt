//! What the damages of a file say of it.

ghost use Rattle.std.specs.Prelude.{◌≡◌, ◌↔◌, ℕ, List, []};
ghost use Rattle.fbc_kinds.specs.File.{IsViewOf};
ghost use Rattle.fbc_kinds.specs.Limits.{IsPageSize};
ghost use Rattle.fbc_kinds.specs.Sound.{IsSound};
ghost use Rattle.fbc_kinds.specs.View.{View};
ghost use Rattle.fbc_kinds.specs.declared.rules.Rule.{Rule};
ghost use Rattle.fbc_kinds.specs.declared.shapes.Shape.{Shape};
ghost use Rattle.fbc_validator.specs.Damage.{AreDamages, AreSpelled};

/// A file has no damage exactly where the view that its bytes give is sound. It does nothing when
/// it is run.
pub fn sound_without_damage()
    ensures { (shape : Shape) (bytes : List ℕ) (view : View) (damages : List (ℕ × Rule))
        → IsPageSize shape.size
        → IsViewOf shape bytes view
        → AreSpelled shape bytes view
        → AreDamages shape bytes view damages
        → (damages ≡ []) ↔ IsSound view }
{}
