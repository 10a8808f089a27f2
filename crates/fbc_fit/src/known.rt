//! What is known of a lock, also of one on a number or a relation, through each change of the requests. These functions do nothing when
//! they are run.

ghost use Rattle.std.specs.Prelude.{◌≡◌, ◌≢◌, ◌∷◌, ℕ, Bool, true, false, Option, Some, None};
ghost use Rattle.std.specs.Option.{option_and_then, option_map};
ghost use Rattle.fbc_kinds.specs.View.{View};
ghost use Rattle.fbc_kinds.specs.declared.shapes.Shape.{Shape};
ghost use Rattle.fbc_levels.specs.declared.levels.Level.{Level};
ghost use Rattle.fbc_levels.specs.declared.resources.Request.{Request};
ghost use Rattle.fbc_levels.specs.declared.resources.Resource.{Resource};
ghost use Rattle.fbc_levels.specs.LockState.{LockState, wait_of};
ghost use Rattle.fbc_levels.specs.Resources.{is_same_resource};
ghost use Rattle.fbc_lock_table.specs.Answers.{answer_to_ask};
ghost use Rattle.fbc_world.specs.declared.events.Act.{Act};
ghost use Rattle.fbc_world.specs.declared.events.Act.TheVariants as act;
ghost use Rattle.fbc_world.specs.History.{History, Moment};
ghost use Rattle.fbc_world.specs.Locks.{locks_of, locks_step, waiting_of};
ghost use Rattle.fbc_world.specs.Owners.{is_alive};
ghost use Rattle.fbc_legal.specs.Legal.{IsLegal};
ghost use Rattle.fbc_region.specs.Adding.{is_quiet};
ghost use Rattle.fbc_fit.specs.Fit.{IsRefused, KnownLock};
ghost use Rattle.fbc_fit.specs.KnownLocks.{IsCircled, IsEntered, KnowsLock, asked_lock, held_lock, learnt_lock, lowered_lock};

/// What another owner does leaves what is known.
pub fn others_leave_known_locks()
    ensures { (shape : Shape) (file : View) (history : History) (moment : Moment) (owner : ℕ) (resource : Resource)
        (known : Option KnownLock) → IsLegal shape file (moment ∷ history) → is_alive history owner ≡ true
        → moment.event.actor ≢ owner → KnowsLock (locks_of history) owner resource known
        → KnowsLock (locks_of (moment ∷ history)) owner resource known }
{}

/// So does what changes no request.
pub fn quiet_acts_leave_known_locks()
    ensures { (locks : LockState) (owner : ℕ) (done : Act) (resource : Resource) (known : Option KnownLock)
        → is_quiet done ≡ true → KnowsLock locks owner resource known
        → KnowsLock (locks_step locks owner done) owner resource known }
{}

/// A grant of what its owner waits for leaves what is known of this lock, and of each other one, until a look tells.
pub fn late_grants_leave_known_locks()
    ensures { (locks : LockState) (owner : ℕ) (on resource : Resource) (level : Level) (known : Option KnownLock)
        → waiting_of locks owner on ≡ Some level → KnowsLock locks owner resource known
        → KnowsLock (locks_step locks owner (act.Grant on level)) owner resource known }
{}

/// Where its owner waits for nothing, what it waited for is granted.
pub fn known_locks_are_learnt()
    ensures { (locks : LockState) (owner : ℕ) (resource : Resource) (known : Option KnownLock)
        → wait_of locks owner ≡ None → KnowsLock locks owner resource known
        → KnowsLock locks owner resource (option_map learnt_lock known) }
{}

/// A lock that is asked for is waited for, if only until its grant, which is the next event; what is known of each other lock stays.
pub fn asked_locks_are_known()
    ensures own { (locks : LockState) (owner : ℕ) (on : Resource) (level : Level) (wait : Bool) (word : ℕ) (known : Option KnownLock)
        → IsEntered locks owner on level wait word → wait_of locks owner ≡ None → KnowsLock locks owner on known
        → KnowsLock (locks_step locks owner (act.Ask on level wait word)) owner on (Some (asked_lock known level)) }
    ensures others { (locks : LockState) (owner : ℕ) (on resource : Resource) (level : Level) (wait : Bool) (word : ℕ)
        (known : Option KnownLock) → IsEntered locks owner on level wait word
        → is_same_resource on resource ≡ false → KnowsLock locks owner resource known
        → KnowsLock (locks_step locks owner (act.Ask on level wait word)) owner resource known }
{}

/// A lock that is held is held in a lower level, or given up; what is known of each other lock stays.
pub fn lowered_locks_are_known()
    ensures own { (locks : LockState) (owner : ℕ) (on : Resource) (before level : Level)
        → KnowsLock locks owner on (Some (held_lock before))
        → KnowsLock (locks_step locks owner (act.Lower on level)) owner on (lowered_lock level) }
    ensures others { (locks : LockState) (owner : ℕ) (on resource : Resource) (before level : Level) (known : Option KnownLock)
        → is_same_resource on resource ≡ false → KnowsLock locks owner on (Some (held_lock before))
        → KnowsLock locks owner resource known
        → KnowsLock (locks_step locks owner (act.Lower on level)) owner resource known }
{}

/// A wait that is withdrawn leaves what was held, or nothing; what is known of a lock that was not waited for stays.
pub fn withdrawn_locks_are_known()
    ensures own { (history : History) (owner : ℕ) (wait : Request) (known : KnownLock)
        → wait_of (locks_of history) owner ≡ Some wait → KnowsLock (locks_of history) owner wait.resource (Some known)
        → KnowsLock (locks_step (locks_of history) owner act.Withdraw) owner wait.resource (lowered_lock known.level) }
    ensures others { (history : History) (owner : ℕ) (resource : Resource) (known : Option KnownLock)
        → option_and_then (λ (k : KnownLock). k.wanted) known ≡ None → KnowsLock (locks_of history) owner resource known
        → KnowsLock (locks_step (locks_of history) owner act.Withdraw) owner resource known }
{}

/// An ask that is refused leaves what is known. So does one that would close a circle of waits, of every lock that is not waited for.
pub fn refused_asks_leave_known_locks()
    ensures refused { (locks : LockState) (owner : ℕ) (on resource : Resource) (level : Level) (wait : Bool) (word : ℕ)
        (known : Option KnownLock) → IsRefused (answer_to_ask locks owner on level wait) → KnowsLock locks owner resource known
        → KnowsLock (locks_step locks owner (act.Ask on level wait word)) owner resource known }
    ensures own { (history : History) (owner : ℕ) (on : Resource) (level : Level) (wait : Bool) (word : ℕ) (known : Option KnownLock)
        → IsCircled (locks_of history) owner on level wait word → wait_of (locks_of history) owner ≡ None
        → KnowsLock (locks_of history) owner on known
        → KnowsLock (locks_step (locks_of history) owner (act.Ask on level wait word)) owner on (lowered_lock (asked_lock known level).level) }
    ensures others { (history : History) (owner : ℕ) (on resource : Resource) (level : Level) (wait : Bool) (word : ℕ)
        (known : Option KnownLock) → IsCircled (locks_of history) owner on level wait word → is_same_resource on resource ≡ false
        → option_and_then (λ (k : KnownLock). k.wanted) known ≡ None → KnowsLock (locks_of history) owner resource known
        → KnowsLock (locks_step (locks_of history) owner (act.Ask on level wait word)) owner resource known }
{}
