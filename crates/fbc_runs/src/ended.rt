//! A machine with some of its open transactions at their ends. None of these functions does anything.

ghost use Rattle.fbc_kinds.specs.Machine.{
  Machine,
  after_end,
  begun,
  machine_step,
  open_transaction,
};
ghost use Rattle.fbc_kinds.specs.Meaning.{meaning_of};
ghost use Rattle.fbc_kinds.specs.View.{View};
ghost use Rattle.fbc_kinds.specs.declared.commands.Command.TheVariants.{Begin, Commit};
ghost use Rattle.fbc_kinds.specs.declared.snapshots.Transaction.{Transaction};
ghost use Rattle.fbc_runs.specs.Changes.{ChangesEnded, IsNotRead};
ghost use Rattle.fbc_runs.specs.Ended.{end_by, is_owner_of, settled_by};
ghost use Rattle.fbc_runs.specs.Orderly.{MakersAreThere};
ghost use Rattle.fbc_runs.specs.Reading.{Gains, ReadsAs};
ghost use Rattle.std.specs.Prelude.{◌≡◌, ◌∷◌, [], ℕ, Bool, false, true, List, None};

/// What an owner does whose transaction ends rolled back is not read.
pub fn ended_owners_are_not_read()
    ensures { (living : List Transaction) (commits : ℕ → Bool) (a m : Machine) (who : ℕ)
        → is_owner_of living who ≡ false → commits who ≡ false → ReadsAs a (settled_by living commits m)
        → IsNotRead living commits a m who }
{}

/// A transaction that ends anyway may end before.
pub fn ends_come_to_the_same()
    ensures { (living : List Transaction) (commits also : ℕ → Bool) (m : Machine) (who : ℕ)
        → is_owner_of living who ≡ false → ((owner : ℕ) → ¬ (owner ≡ who) → also owner ≡ commits owner)
        → settled_by living also (after_end m who (end_by (commits who))) ≡ settled_by living commits m }
{}

/// What a living owner changes comes to the same where the others are at their ends.
pub fn living_owners_change_ended_machines()
    ensures { (living : List Transaction) (commits : ℕ → Bool) (m : Machine) (who : ℕ) → is_owner_of living who ≡ true
        → ChangesEnded living commits m who }
{}

/// The ends depend on the commits of owners that are not living, and on who is living.
pub fn same_ends()
    ensures commits { (living : List Transaction) (commits also : ℕ → Bool) (m : Machine)
        → ((owner : ℕ) → is_owner_of living owner ≡ false → commits owner ≡ also owner)
        → settled_by living commits m ≡ settled_by living also m }
    ensures living { (living others : List Transaction) (commits : ℕ → Bool) (m : Machine)
        → ((owner : ℕ) → is_owner_of living owner ≡ is_owner_of others owner)
        → settled_by living commits m ≡ settled_by others commits m }
{}

/// A living owner that begins is one open transaction more, where the others are at their ends.
pub fn begun_owners_are_gained()
    ensures { (living : List Transaction) (commits : ℕ → Bool) (m : Machine) (who number : ℕ)
        → MakersAreThere m → open_transaction m who ≡ None → is_owner_of living who ≡ true
        → Gains (settled_by living commits m) (settled_by living commits (machine_step m (Begin who number)))
        who (begun m who number) }
{}

/// A file has no transaction that is not at its end.
pub fn none_living_in_a_file()
    ensures { (view : View) (commits : ℕ → Bool) → settled_by [] commits (meaning_of view) ≡ meaning_of view }
{}

/// The commit of the last that goes on leaves the machine in which it is at its end too.
pub fn commits_of_ended()
    ensures { (t : Transaction) (living : List Transaction) (commits also : ℕ → Bool) (m : Machine)
        → is_owner_of living t.owner ≡ false → also t.owner ≡ true
        → ((owner : ℕ) → ¬ (owner ≡ t.owner) → also owner ≡ commits owner)
        → machine_step (settled_by (t ∷ living) commits m) (Commit t.owner) ≡ settled_by living also m }
{}
