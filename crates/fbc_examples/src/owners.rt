//! Owners that come, wait, go and die. None of these functions does anything.

ghost use Rattle.std.specs.Prelude.{◌≡◌, Bool, None};
ghost use Rattle.fbc_legal.specs.Legal.{IsLegal};
ghost use Rattle.fbc_examples.specs.Files.{new_file, small_shape};
ghost use Rattle.fbc_examples.specs.Owners.{with_busy_ask, with_circle, with_failed_write, with_full_ask, with_full_table, with_given_up, with_leave, with_reaped_holder, with_reaped_owner, with_upward_wait};
ghost use Rattle.fbc_examples.specs.Steps.{relation_resource};
ghost use Rattle.fbc_levels.specs.Resources.{page_resource};
ghost use Rattle.fbc_world.specs.Locks.{waiting};

/// An owner waits, looks, withdraws and goes. One that has a page pinned waits for another, which
/// ranks higher.
pub fn owners_wait()
    ensures goes { IsLegal small_shape new_file with_leave }
    ensures upward { IsLegal small_shape new_file with_upward_wait }
{}

/// An ask is answered for which its owner does not wait, for which there is no room, and which would
/// close a circle of waits. None of these owners waits then.
pub fn asks_are_answered()
    ensures busy { IsLegal small_shape new_file with_busy_ask }
    ensures room { IsLegal small_shape new_file with_full_ask }
    ensures circle { IsLegal small_shape new_file with_circle }
    ensures no_wait { (waiting with_busy_ask 2 (page_resource 1) ≡ None)
        × (waiting with_full_ask 2 (page_resource 4) ≡ None)
        × (waiting with_circle 2 relation_resource ≡ None) }
{}

/// What a dead owner left is taken away: for an owner that waits, for one that asks, and for one
/// that asks where there is no room.
pub fn the_dead_are_reaped()
    ensures waits { IsLegal small_shape new_file with_reaped_holder }
    ensures asks { IsLegal small_shape new_file with_reaped_owner }
    ensures room { IsLegal small_shape new_file with_full_table }
{}

/// A read fails, and a page is given up. A write fails, whether or not it reaches the file.
pub fn reads_and_writes_fail()
    ensures read { IsLegal small_shape new_file with_given_up }
    ensures write { (landed : Bool) → IsLegal small_shape new_file (with_failed_write landed) }
{}
