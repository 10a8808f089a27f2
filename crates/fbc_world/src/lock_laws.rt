//! Laws of locks over all histories. None of these functions does anything.

ghost use Rattle.std.specs.Prelude.{◌≡◌, ℕ};
ghost use Rattle.std.specs.List.{AllPairs};
ghost use Rattle.fbc_levels.specs.declared.resources.Resource.{Resource};
ghost use Rattle.fbc_levels.specs.LockState.{AreApart, granted_of};
ghost use Rattle.fbc_world.specs.History.{History};
ghost use Rattle.fbc_world.specs.Locks.{locks_of};
ghost use Rattle.fbc_world.specs.Owners.{granted};

/// What the list of requests says that an owner is granted is the level that it is granted.
pub fn requests_grant_levels()
    ensures { (history : History) (owner : ℕ) (resource : Resource)
        → granted_of (locks_of history) owner resource ≡ granted history owner resource }
{}

/// An owner has one request for a resource at most.
pub fn requests_are_apart()
    ensures { (history : History) → AllPairs AreApart (locks_of history).requests }
{}
