//! Laws of the table, for the proofs of the crates above. None of these functions does anything.

ghost use Rattle.std.specs.Prelude.{◌≡◌, ◌↔◌, ℕ, false, IsTrue, MatchOption};
ghost use Rattle.std.specs.List.{All};
ghost use Rattle.fbc_levels.specs.Levels.{is_compatible, join};
ghost use Rattle.fbc_levels.specs.LockState.{LockState, IsHolder, holder_of, stands_in_way};
ghost use Rattle.fbc_levels.specs.Resources.{is_same_resource};
ghost use Rattle.fbc_levels.specs.declared.levels.Level.{Level};
ghost use Rattle.fbc_levels.specs.declared.resources.Resource.{Resource};

/// It does not matter which of two levels is named first.
pub fn compatible_both_ways()
    ensures { (a b : Level) → is_compatible a b ≡ is_compatible b a }
{}

/// What goes beside a level goes beside each level that it gives as well.
pub fn lower_levels_go_beside()
    ensures { (held lower other : Level) → join held lower ≡ held
        → IsTrue (is_compatible held other) → IsTrue (is_compatible lower other) }
{}

/// Resources are the same where series and key are.
pub fn same_resources_are_equal()
    ensures { (a b : Resource) → IsTrue (is_same_resource a b) ↔ (a ≡ b) }
{}

/// The holder is in the way, and nobody with a lesser number is; without one nobody is in the way.
pub fn holders_are_least()
    ensures { (s : LockState) (owner : ℕ) (resource : Resource) (level : Level)
        → MatchOption (holder_of s owner resource level)
        (All (λ r. stands_in_way owner resource level r ≡ false) s.requests)
        (IsHolder s owner resource level) }
{}
