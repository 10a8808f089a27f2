//! The search for a path by which an owner's wait leads back to it.

ghost use Rattle.std.specs.Prelude.{◌≡◌, ◌+◌, ◌<◌, ◌≤◌, length, nat_lt, true};
ghost use Rattle.std.specs.List.{take_while};
ghost use Rattle.arrayvec.specs.ArrayVec.{array_vec_len};
ghost use Rattle.fbc_levels.specs.Waits.{waits_for_number};
ghost use Rattle.fbc_owner_queues.specs.Living as living_spec;
ghost use Rattle.fbc_owner_queues.specs.Living.{has};
ghost use Rattle.fbc_owner_queues.specs.Search.{entered, stepped, searched, leaving, Leaves};

use arrayvec::ArrayVec;
use fbc_levels::Request;
use fbc_lock_table::LockTable;

/// At most eight owners.
pub type Owners = ArrayVec<u32, 8>;

/// The living owners that have requests, in rising order.
pub fn living_owners(table: &LockTable) -> Owners
    requires { length (living_spec.living_owners table.now) ≤ 8 }
    ensures { result.items ≡ living_spec.living_owners table.now }
{
    let mut owners = Owners::new();
    for k in 0..table.used() {
        let request = table.request(k);
        add_living(&mut owners, &request);
    }
    owners
}

/// Puts the request's owner among rising owners, if it lives.
fn add_living(owners: &mut Owners, request: &Request)
    requires { length (living_spec.with_living owners.old.items request.now) ≤ 8 }
    ensures { owners.new.items ≡ living_spec.with_living owners.old.items request.now }
{
    if request.alive {
        add_owner(owners, request.owner);
    }
}

/// Puts the owner among rising owners, once.
fn add_owner(owners: &mut Owners, owner: u32)
    requires { length (living_spec.with_owner owner owners.old.items) ≤ 8 }
    ensures { owners.new.items ≡ living_spec.with_owner owner owners.old.items }
{
    if !has_owner(owners.as_slice(), owner) {
        owners.insert(count_below(owners.as_slice(), owner), owner);
    }
}

/// How many of rising owners are less than this one.
fn count_below(owners: &[u32], owner: u32) -> usize
    ensures { result ≡ length (take_while (λ o. nat_lt o owner) owners.now) }
{
    owners.iter().take_while(|other| **other < owner).count()
}

/// Whether the owner is among these.
pub fn has_owner(owners: &[u32], owner: u32) -> bool
    ensures { result ≡ has owners.now owner }
{
    owners.contains(&owner)
}

/// The owners but this one, of whom there are fewer if it is among them.
pub fn others_of(owners: &[u32], owner: u32) -> Owners
    requires { length owners.now ≤ 8 }
    ensures items { result.items ≡ leaving owners.now owner }
    ensures shorter { has owners.now owner ≡ true → array_vec_len result < length owners.now }
{
    let mut others = Owners::new();
    for other in owners {
        if *other != owner {
            others.push(*other);
        }
    }
    others
}

/// A search over the waits of a table's living owners for paths to one of them.
#[derive(Clone, Copy)]
pub struct Search<'a> {
    pub table: &'a LockTable,
    pub living: &'a [u32],
    pub goal: u32,
}

impl Search<'_> {
    /// Searches from the owner on, at most so deep. The owners of the path that leads to the goal
    /// are put behind `path`, and `true` is answered; else `free` is left with those that were
    /// not entered.
    #[cycle(search)]
    pub fn from(&self, owner: u32, depth: usize, free: &mut Owners, path: &mut Owners) -> bool
        requires { array_vec_len path.old + array_vec_len free.old ≤ 8 }
        ensures leaves { Leaves
            (searched (waits_for_number self.now.table.now) self.now.living.now self.now.goal depth owner free.old.items)
            result path.old.items path.new.items free.new.items }
        ensures room { array_vec_len path.new + array_vec_len free.new ≤ array_vec_len path.old + array_vec_len free.old }
    {
        if depth == 0 {
            return false;
        }
        for next in self.living {
            if self.step(owner, *next, depth - 1, free, path) {
                return true;
            }
        }
        false
    }

    /// Tries one owner, if it is waited for: the goal ends the path, and others are entered.
    #[cycle(search)]
    fn step(
        &self,
        owner: u32,
        next: u32,
        depth: usize,
        free: &mut Owners,
        path: &mut Owners,
    ) -> bool
        requires { array_vec_len path.old + array_vec_len free.old ≤ 8 }
        ensures leaves { Leaves
            (stepped (waits_for_number self.now.table.now owner) self.now.goal
            (searched (waits_for_number self.now.table.now) self.now.living.now self.now.goal depth) next free.old.items)
            result path.old.items path.new.items free.new.items }
        ensures room { array_vec_len path.new + array_vec_len free.new ≤ array_vec_len path.old + array_vec_len free.old }
    {
        if !self.table.waits_for_number(owner, next) {
            return false;
        }
        if next == self.goal {
            return true;
        }
        self.enter(next, depth, free, path)
    }

    /// Enters the owner, if it is free, and searches from it on.
    #[cycle(search)]
    fn enter(&self, owner: u32, depth: usize, free: &mut Owners, path: &mut Owners) -> bool
        requires { array_vec_len path.old + array_vec_len free.old ≤ 8 }
        ensures leaves { Leaves
            (entered (searched (waits_for_number self.now.table.now) self.now.living.now self.now.goal depth) owner free.old.items)
            result path.old.items path.new.items free.new.items }
        ensures room { array_vec_len path.new + array_vec_len free.new ≤ array_vec_len path.old + array_vec_len free.old }
    {
        if !has_owner(free.as_slice(), owner) {
            return false;
        }
        *free = others_of(free.as_slice(), owner);
        path.push(owner);
        if self.from(owner, depth, free, path) {
            return true;
        }
        path.pop();
        false
    }
}
