//! What every run keeps. None of these functions does anything.

ghost use Rattle.fbc_kinds.specs.declared.commands.Command.{Command};
ghost use Rattle.fbc_kinds.specs.declared.snapshots.Transaction.{Transaction};
ghost use Rattle.fbc_kinds.specs.Chain.{Version, chain};
ghost use Rattle.fbc_kinds.specs.Machine.{Machine, MayCome, machine_step};
ghost use Rattle.fbc_kinds.specs.Meaning.{meaning_of};
ghost use Rattle.fbc_kinds.specs.View.{View, next_of};
ghost use Rattle.fbc_runs.specs.Ended.{settled_by};
ghost use Rattle.fbc_runs.specs.Orderly.{IsInFront, IsOrderly};
ghost use Rattle.fbc_runs.specs.Runs.{MayAllCome, machine_after};
ghost use Rattle.std.specs.Prelude.{◌<◌, ◌≤◌, ℕ, All, Bool, List};

/// A row in which a version of an open transaction stands has one of that transaction in front.
pub fn own_versions_stand_in_front()
    ensures { (machine : Machine) (who : ℕ) → IsOrderly machine → IsInFront machine who }
{}

/// A file in which every number of a version has begun means an orderly machine.
pub fn files_mean_orderly_machines()
    ensures { (view : View)
        → ((relation row : ℕ) → All (λ (v : Version). (0 < v.number) × (v.number ≤ next_of view)) (chain view relation row))
        → IsOrderly (meaning_of view) }
{}

/// Every command that may come keeps a machine orderly.
pub fn commands_keep_machines_orderly()
    ensures { (machine : Machine) (command : Command) → IsOrderly machine → MayCome machine command
        → IsOrderly (machine_step machine command) }
{}

/// An orderly machine stays so where all its open transactions end, but those of the living ones.
pub fn ended_machines_are_orderly()
    ensures { (living : List Transaction) (commits : ℕ → Bool) (machine : Machine) → IsOrderly machine
        → IsOrderly (settled_by living commits machine) }
{}

/// Commands that may come one after the other keep a machine orderly.
pub fn runs_are_orderly()
    ensures { (machine : Machine) (commands : List Command) → IsOrderly machine → MayAllCome machine commands
        → IsOrderly (machine_after machine commands) }
{}
