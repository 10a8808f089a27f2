//! Laws of the queues, for the proofs of the crates above. None of these functions does anything.

ghost use Rattle.std.specs.Prelude.{◌≡◌, ◌↔◌, ◌≤◌, ◌<◌, ℕ, true, List, length, None, IfSome};
ghost use Rattle.std.specs.List.{All, AllPairs, list_any};
ghost use Rattle.fbc_levels.specs.declared.levels.Level.{Level};
ghost use Rattle.fbc_levels.specs.declared.resources.Resource.{Resource};
ghost use Rattle.fbc_levels.specs.declared.resources.Series.TheVariants as series;
ghost use Rattle.fbc_levels.specs.Levels.{join};
ghost use Rattle.fbc_levels.specs.LockState.{LockState, IsLawful, Lives, granted_of, wait_of, is_alive_of};
ghost use Rattle.fbc_levels.specs.Waits.{Leads, WaitsForNumber};
ghost use Rattle.fbc_lock_table.specs.declared.answers.Asked.{Asked};
ghost use Rattle.fbc_lock_table.specs.declared.answers.Asked.TheVariants as asked;
ghost use Rattle.fbc_lock_table.specs.declared.answers.Looked.TheVariants as looked;
ghost use Rattle.fbc_lock_table.specs.Answers.{MayAsk, answer_to_look};
ghost use Rattle.fbc_lock_table.specs.Effects.{after_ask, lowered, withdrawn, died};
ghost use Rattle.fbc_owner_queues.specs.Circles.{circle_from};
ghost use Rattle.fbc_owner_queues.specs.Grants.{next_grant, with_grant, first_of, without_request};
ghost use Rattle.fbc_owner_queues.specs.Living.{has, living_owners};
ghost use Rattle.fbc_owner_queues.specs.Turns.{AllWantMore, granted_times, passed};

/// To grant the first waiting request that can be granted until there is none is to go once
/// through the requests in the order of asking and to grant each that can be granted then.
pub fn grants_in_turn()
    ensures same { (s : LockState) (resource : Resource) → IsLawful s → AllWantMore s
        → granted_times (length s.requests) resource s ≡ passed resource s }
    ensures end { (s : LockState) (resource : Resource) → IsLawful s → AllWantMore s → next_grant (passed resource s) resource ≡ None }
{}

/// As many grants as there are requests are enough: then none can be granted any more.
pub fn grants_come_to_an_end()
    ensures { (s : LockState) (resource : Resource) → next_grant (granted_times (length s.requests) resource s) resource ≡ None }
{}

/// Where each wait is a raise, it is so after every call, if each ask is a raise of what its owner
/// is granted. So the condition of `grants_in_turn` holds for each table in which no owner ever
/// asked for less than it was granted.
pub fn waits_stay_raises()
    ensures ask { (s : LockState) (owner : ℕ) (resource : Resource) (level : Level) (word : ℕ) (answer : Asked)
        → IsLawful s → MayAsk s owner resource level → join (granted_of s owner resource) level ≡ level
        → AllWantMore s → AllWantMore (after_ask s owner resource level word answer) }
    ensures lower { (s : LockState) (owner : ℕ) (resource : Resource) (level : Level) → IsLawful s
        → join (granted_of s owner resource) level ≡ granted_of s owner resource → AllWantMore s
        → AllWantMore (lowered s owner resource level) }
    ensures withdraw { (s : LockState) (owner : ℕ) → AllWantMore s → AllWantMore (withdrawn s owner) }
    ensures die { (s : LockState) (owner : ℕ) → AllWantMore s → AllWantMore (died s owner) }
    ensures grant { (s : LockState) (resource : Resource) → AllWantMore s → AllWantMore (with_grant s (next_grant s resource)) }
    ensures purge { (s : LockState) (owner : ℕ) → AllWantMore s → AllWantMore (without_request s (first_of s owner)) }
{}

/// A look answers Granted to a living owner exactly where it waits for nothing any more, once
/// nobody can be granted the resource that it waited for.
pub fn looks_tell_grants()
    ensures { (s : LockState) (owner : ℕ) → Lives s owner
        → IfSome (wait_of s owner) (λ wait. next_grant s wait.resource ≡ None)
        → (answer_to_look s owner ≡ looked.Granted) ↔ (wait_of s owner ≡ None) }
{}

/// The living owners that have requests are no more than those of a list that names each of them,
/// and no more than the requests.
pub fn living_owners_are_few()
    ensures census { (s : LockState) (census : List ℕ)
        → All (λ r. r.alive ≡ true → has census r.owner ≡ true) s.requests
        → length (living_owners s) ≤ length census }
    ensures requests { (s : LockState) → length (living_owners s) ≤ length s.requests }
{}

/// They are in rising order, and are those that a request names which says that its owner lives.
pub fn living_owners_are_in_order()
    ensures rising { (s : LockState) → AllPairs (λ o p. o < p) (living_owners s) }
    ensures those { (s : LockState) (owner : ℕ) → has (living_owners s) owner ≡ list_any (is_alive_of owner) s.requests }
{}

/// Where the search from an owner finds no circle, no waits for transactions and relations lead from it back to it.
pub fn circles_are_found()
    ensures { (s : LockState) (owner : ℕ) (others : List ℕ) → circle_from s owner ≡ None
        → ¬ Leads (WaitsForNumber s) owner others owner }
{}

/// An owner that waits for nothing closes no circle by its ask for a page: no ask for a page is refused as one that would.
pub fn page_asks_close_no_circle()
    ensures { (s : LockState) (owner : ℕ) (resource : Resource) (level : Level) (word : ℕ)
        → wait_of s owner ≡ None → resource.series ≡ series.Page
        → circle_from (after_ask s owner resource level word asked.Queued) owner ≡ None }
{}
