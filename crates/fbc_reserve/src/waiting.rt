//! How one lock that is no page is got.

ghost use Rattle.std.specs.Prelude.{◌≡◌, ◌↔◌, true, Some};
ghost use Rattle.fbc_kinds.specs.declared.replies.Reply.{Reply as AReply};
ghost use Rattle.fbc_world.specs.declared.answers.Answer.TheVariants as answers;
ghost use Rattle.fbc_world.specs.declared.asks.Ask.{Ask as AnAsk};
ghost use Rattle.fbc_reserve.specs.declared.waiting.Stage.TheVariants as stage;
ghost use Rattle.fbc_reserve.specs.declared.waiting.WaitStep.TheVariants as step;
ghost use Rattle.fbc_reserve.specs.Waits.{MayWaitFor, asked_after, is_answer_to, refusal_by, stage_after, step_of};

use crate::refusals::LockRefusal;
use fbc_kinds::{Circle, Reply};
use fbc_levels::{Cycle, Level, Resource, number};
use fbc_world::{Answer, Ask};
use std::marker::Model;

/// What comes next for a lock.
#[derive(Debug, Drop)]
pub enum WaitStep {
    /// This is to be asked, and its answer to be taken.
    Must(Ask),
    /// The lock is granted.
    Got,
    /// The lock is refused, and the statement is answered so.
    Over(Reply),
}

/// How far a lock has come.
#[derive(Clone, Copy, Debug, PartialEq, Eq)]
pub enum Stage {
    /// It is to be asked.
    Asks,
    /// It is waited for.
    Looks,
    Got,
    Over(LockRefusal),
}

/// One lock on a transaction's number or on a relation, on its way. Contracts see what is asked and how far it has come.
#[derive(Clone, Copy, Debug)]
pub struct Waiting {
    resource: Resource,
    level: Level,
    wait: bool,
    word: u32,
    stage: Stage,
}

impl Model for Waiting {
    ghost use Rattle.fbc_reserve.specs.Waits.{MayWaitFor, WaitState};
    ghost use Rattle.std.specs.Prelude.{refl};

    ghost Value = { WaitState };

    ghost view = { λ w. record { resource = w.resource; level = w.level; wait = w.wait; word = w.word; stage = w.stage } };

    ghost invariant = { λ w. MayWaitFor w.resource w.level };

    ghost inverse = { λ w. record { resource = w.resource; level = w.level; wait = w.wait; word = w.word; stage = w.stage } };

    ghost inverse_ok = { λ w is. refl };
}

impl Waiting {
    /// The lock that is to be asked: on this resource, in this level, waiting or not, with this data word.
    pub fn new(resource: Resource, level: Level, wait: bool, word: u32) -> Waiting
        requires { MayWaitFor resource level }
        ensures { result ≡ record { resource = resource; level = level; wait = wait; word = word; stage = stage.Asks } }
    {
        Waiting {
            resource,
            level,
            wait,
            word,
            stage: Stage::Asks,
        }
    }

    /// What comes next: the ask, a look, or the end.
    pub fn next(&self) -> WaitStep
        ensures step { result ≡ step_of self.now }
        ensures lawful { MayWaitFor self.now.resource self.now.level }
    {
        match self.stage {
            Stage::Asks => WaitStep::Must(Ask::Lock {
                resource: self.resource,
                level: self.level,
                wait: self.wait,
                word: self.word,
            }),
            Stage::Looks => WaitStep::Must(Ask::Look),
            Stage::Got => WaitStep::Got,
            Stage::Over(refused) => WaitStep::Over(refused.reply()),
        }
    }

    /// Whether the answer is one to what `next` gives.
    pub fn is_answered_by(&self, answer: &Answer) -> bool
        ensures { result ≡ is_answer_to (step_of self.now) answer.now }
    {
        match self.stage {
            Stage::Asks => matches!(
                answer,
                Answer::Granted
                    | Answer::Queued
                    | Answer::Busy { .. }
                    | Answer::Room { .. }
                    | Answer::Deadlock { .. }
                    | Answer::Reaped { .. }
            ),
            Stage::Looks => matches!(
                answer,
                Answer::Granted | Answer::NotYet { .. } | Answer::Reaped { .. }
            ),
            Stage::Got | Stage::Over(_) => false,
        }
    }

    /// Takes the answer to the ask that `next` gave.
    pub fn take(&mut self, answer: &Answer)
        requires { is_answer_to (step_of self.old) answer.now ≡ true }
        ensures after { self.new ≡ record self.old { stage = stage_after self.old.stage answer.now } }
        ensures got { (step_of self.new ≡ step.Got) ↔ (answer.now ≡ answers.Granted) }
        ensures over { (reply : AReply) → (step_of self.new ≡ step.Over reply) ↔ (refusal_by answer.now ≡ Some reply) }
        ensures must { (asked : AnAsk) → (step_of self.new ≡ step.Must asked) ↔ (asked_after (step_of self.old) answer.now ≡ Some asked) }
    {
        match *answer {
            Answer::Granted => self.stage = Stage::Got,
            Answer::Queued | Answer::NotYet { holder: _ } => self.stage = Stage::Looks,
            Answer::Busy { holder, level } => self.stop(LockRefusal::Busy {
                holder,
                level: number(level),
            }),
            Answer::Room { used } => self.stop(LockRefusal::Room { used }),
            Answer::Deadlock { cycle } => self.stop(LockRefusal::Deadlock {
                cycle: circle_of(&cycle),
            }),
            _ => {}
        }
    }

    /// The lock is refused so.
    fn stop(&mut self, refused: LockRefusal)
        ensures { self.new ≡ record self.old { stage = stage.Over refused } }
    {
        self.stage = Stage::Over(refused);
    }
}

/// The circle as a reply shows it.
fn circle_of(cycle: &Cycle) -> Circle
    ensures { result ≡ cycle.now }
{
    Circle::new(cycle.owners())
}
