//! Circles of owners that wait for each other.

ghost use Rattle.std.specs.Prelude.{◌≡◌, ◌∷◌, ◌<◌, ◌≤◌, nat_lt, length, List, ℕ, IfSome, IfNone};
ghost use Rattle.fbc_levels.specs.Waits.{WaitsForNumber, Leads, IsCircle};
ghost use Rattle.std.specs.List.{take_while};
ghost use Rattle.arrayvec.specs.ArrayVec.{array_vec_len};
ghost use Rattle.fbc_owner_queues.specs.Living as living_spec;
ghost use Rattle.fbc_owner_queues.specs.Circles as spec;

use crate::search::{Owners, Search, has_owner, living_owners, others_of};
use fbc_levels::Cycle;
use fbc_lock_table::LockTable;

/// The circle of living owners by which the owner's wait for a transaction or a relation leads
/// back to it, its least owner first; none exactly where there is no such circle. Of several it
/// is the one that a search finds which goes depth first from the owner, tries those that an
/// owner waits for in rising order, and enters none twice.
pub fn cycle_from(table: &LockTable, owner: u32) -> Option<Cycle>
    requires { length (living_spec.living_owners table.now) ≤ 8 }
    ensures found { result ≡ spec.circle_from table.now owner }
    ensures circle { IfSome result (IsCircle (WaitsForNumber table.now)) }
    ensures none { IfNone result ((others : List ℕ) → Leads (WaitsForNumber table.now) owner others owner → ⊥) }
{
    let living = living_owners(table);
    if !has_owner(living.as_slice(), owner) {
        return None;
    }
    let mut free = others_of(living.as_slice(), owner);
    let mut path = Owners::new();
    let search = Search {
        table,
        living: living.as_slice(),
        goal: owner,
    };
    if search.from(owner, living.len(), &mut free, &mut path) {
        Some(least_first(owner, &path))
    } else {
        None
    }
}

/// The circle of the owner and these, with its least owner first.
fn least_first(owner: u32, others: &Owners) -> Cycle
    requires { array_vec_len others.now < 8 }
    ensures { result ≡ spec.least_first owner others.now.items }
{
    let mut owners = circle_of(owner, others.as_slice());
    let before = count_above(owners.as_slice(), least_of(owner, others.as_slice()));
    owners.as_mut_slice().rotate_left(before);
    Cycle::new(owners.as_slice())
}

/// The owner and these behind it.
fn circle_of(owner: u32, others: &[u32]) -> Owners
    requires { length others.now < 8 }
    ensures { result.items ≡ owner ∷ others.now }
{
    let mut owners = Owners::new();
    owners.push(owner);
    for other in others {
        owners.push(*other);
    }
    owners
}

/// How many stand before the first that is not greater than the least.
fn count_above(owners: &[u32], least: u32) -> usize
    ensures count { result ≡ length (take_while (nat_lt least) owners.now) }
    ensures within { result ≤ length owners.now }
{
    owners.iter().take_while(|other| least < **other).count()
}

/// The least of the owner and these.
fn least_of(owner: u32, others: &[u32]) -> u32
    ensures { result ≡ spec.least_of owner others.now }
{
    others.iter().fold(owner, |least, other| least.min(*other))
}
