//! What a step is behind a history, for those that know no journal. None of these functions does anything.

ghost use Rattle.std.specs.Prelude.{◌++◌, ℕ, Bool, List};
ghost use Rattle.std.specs.List.{AllByRecursion};
ghost use Rattle.fbc_levels.specs.LockState.{LockState};
ghost use Rattle.fbc_region.specs.Lawful.{AreLandings};
ghost use Rattle.fbc_region.specs.Shared.{history_of};
ghost use Rattle.fbc_region.specs.Stepping.{Performs};
ghost use Rattle.fbc_region.specs.Steps.{FollowAct, IsGrant, IsStepOf};
ghost use Rattle.fbc_world.specs.declared.answers.Answer.{Answer};
ghost use Rattle.fbc_world.specs.declared.asks.Ask.{Ask};
ghost use Rattle.fbc_world.specs.declared.events.Act.{Act};
ghost use Rattle.fbc_world.specs.declared.events.Event.{Event};
ghost use Rattle.fbc_world.specs.declared.events.LocalEvent.{LocalEvent};
ghost use Rattle.fbc_world.specs.History.{Recording};

/// By a step the history of a journal goes on as `specs/Steps` says, whichever of its failed writes landed.
pub fn performed_steps_are_steps()
    ensures { (before after : Recording) (landings new : List Bool) (who : ℕ) (events : List LocalEvent) (answer : Answer) (asked : Ask)
        → Performs before after who events answer asked → AreLandings answer new
        → IsStepOf (history_of before landings) who events asked answer (history_of after (landings ++ new)) }
{}

/// What follows an owner's own event in a step are grants, and nothing else.
pub fn grants_alone_follow_acts()
    ensures { (locks : LockState) (who : ℕ) (answer : Answer) (own : Act) (grants : List Event)
        → FollowAct locks who answer own grants → AllByRecursion IsGrant grants }
{}
