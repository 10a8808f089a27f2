//! What a snapshot holds.

ghost use Rattle.std.specs.Prelude.{◌≡◌, Some};
ghost use Rattle.fbc_kinds.specs.Chain.{holds};
ghost use Rattle.fbc_cache.specs.Least.{IsLeast};
ghost use Rattle.fbc_tip.specs.Snapshots.{is_active_or_own, state_by};

use fbc_kinds::{Snapshot, State};

/// The least number from 1 on below the own one that is active by the snapshot, or else the own one.
pub fn least_active(snapshot: &Snapshot) -> u32
    ensures { IsLeast (is_active_or_own snapshot.now) (Some result) }
{
    for number in 1..snapshot.own {
        if state_by(snapshot, number) == State::Active {
            return number;
        }
    }
    snapshot.own
}

/// Whether the snapshot holds the number: it is the own one, or was committed.
pub fn holds(snapshot: &Snapshot, number: u32) -> bool
    ensures { result ≡ holds snapshot.now number }
{
    number == snapshot.own || state_by(snapshot, number) == State::Committed
}

/// The state of the number by the snapshot, active where it has none.
fn state_by(snapshot: &Snapshot, number: u32) -> State
    ensures { result ≡ state_by snapshot.now number }
{
    match snapshot.states.items().get(number as usize) {
        Some(state) => *state,
        None => State::Active,
    }
}
