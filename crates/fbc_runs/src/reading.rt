//! When one machine reads as another, and what leaves it so. None of these functions does anything.

ghost use Rattle.fbc_kinds.specs.Machine.{Machine, machine_step};
ghost use Rattle.fbc_kinds.specs.Meaning.{IsSameTransaction, MeanTheSame};
ghost use Rattle.fbc_kinds.specs.declared.commands.Command.TheVariants.{Commit};
ghost use Rattle.fbc_kinds.specs.declared.snapshots.Standing.TheVariants.{RolledBack};
ghost use Rattle.fbc_kinds.specs.declared.snapshots.Transaction.{Transaction};
ghost use Rattle.fbc_runs.specs.Changes.{ChangesStayRead, HasNoVersions, HoldsCommitted, LacksSettledAlone};
ghost use Rattle.fbc_runs.specs.Orderly.{IsInFront, OwnersDiffer};
ghost use Rattle.fbc_runs.specs.Reading.{Gains, ReadsAs};
ghost use Rattle.std.specs.Prelude.{◌≡◌, ◌++◌, ◌∷◌, [], ℕ};

/// Every machine reads as itself.
pub fn machines_read_as_themselves()
    ensures { (a : Machine) → ReadsAs a a }
{}

/// A change of a row that may come to a machine may come to the one that it reads as, and afterwards the one
/// still reads as the other.
pub fn changes_keep_reading()
    ensures { (a b : Machine) → ReadsAs a b → OwnersDiffer a.transactions → OwnersDiffer b.transactions
        → ChangesStayRead a b }
{}

/// The commit of an owner whose versions are in front leaves what is read.
pub fn commits_keep_reading()
    ensures { (a b : Machine) (who : ℕ) → ReadsAs a b → IsInFront a who → IsInFront b who
        → OwnersDiffer a.transactions → OwnersDiffer b.transactions
        → ReadsAs (machine_step a (Commit who)) (machine_step b (Commit who)) }
{}

/// An owner that begins on both machines, with a number that no version has, leaves what is read.
pub fn begins_keep_reading()
    ensures { (a b after_a after_b : Machine) (who : ℕ) (t u : Transaction)
        → ReadsAs a b → Gains a after_a who t → Gains b after_b who u → IsSameTransaction t u
        → HoldsCommitted a t → HasNoVersions a t.number → HasNoVersions b t.number
        → ReadsAs after_a after_b }
{}

/// An edit that leaves what a machine means, and the newest versions but for settled deletions, leaves what it
/// reads as.
pub fn edits_keep_reading()
    ensures { (a after b : Machine) → ReadsAs a b → MeanTheSame a after → after.transactions ≡ a.transactions
        → OwnersDiffer a.transactions → OwnersDiffer b.transactions
        → LacksSettledAlone after a
        → ReadsAs after b }
{}

/// A transaction more that is rolled back is not read.
pub fn rolled_back_ones_are_not_read()
    ensures first { (a b : Machine) (x : Transaction) → x.standing ≡ RolledBack → ReadsAs a b
        → ReadsAs (record a { transactions = a.transactions ++ x ∷ [] }) b }
    ensures second { (a b : Machine) (x : Transaction) → x.standing ≡ RolledBack → ReadsAs a b
        → ReadsAs a (record b { transactions = b.transactions ++ x ∷ [] }) }
{}
