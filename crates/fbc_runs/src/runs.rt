//! Commands that may come one after the other. None of these functions does anything.

ghost use Rattle.fbc_kinds.specs.declared.commands.Command.{Command};
ghost use Rattle.fbc_kinds.specs.declared.replies.Reply.{Reply};
ghost use Rattle.fbc_kinds.specs.Machine.{IsRun, Machine};
ghost use Rattle.fbc_runs.specs.Runs.{MayAllCome, is_change, machine_after};
ghost use Rattle.std.specs.Prelude.{◌≡◌, All, List, true};

/// Commands that ask nothing and may come one after the other are a run with some replies.
pub fn playable_commands_are_runs()
    ensures { (machine : Machine) (commands : List Command)
        → All (λ c. is_change c ≡ true) commands → MayAllCome machine commands
        → (replies : List Reply) × IsRun machine commands replies (machine_after machine commands) }
{}
