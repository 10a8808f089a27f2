//! Moments at which an attachment asks whether somebody waits for one of its pages, and serves who does.
#![tactic(auto, using(crate::proofs::Runs::run_steps))]

ghost use Rattle.std.specs.Prelude.{◌≡◌, IfSome, is_none};
ghost use Rattle.fbc_world.specs.declared.asks.Cause.TheVariants as causes;
ghost use Rattle.fbc_cache.specs.Giving.{GivesUp};
ghost use Rattle.fbc_attachment.specs.Attachment.{IsSame};
ghost use Rattle.fbc_attachment.specs.Passing.{is_above, is_passed_over};
ghost use Rattle.fbc_attachment.specs.Running.{Runs};

use crate::attachment::Attachment;
use fbc_levels::{Callback, Level, number};
use fbc_world::{Answer, Ask, Cause};
use std::alloc::AllocError;

/// How far such a moment has come. An idle attachment asks once, and serves one callback.
#[derive(Clone, Copy, Debug, PartialEq, Eq)]
pub enum Polls {
    Off,
    /// It asked for a callback.
    Asked { is_idle: bool },
    /// It serves this one.
    Serving { callback: Callback, is_idle: bool },
}

impl Attachment {
    /// Takes the answer to the ask for a callback.
    pub(crate) fn hear_poll(&mut self, answer: &Answer) -> Result<(), AllocError>
        ensures same { IsSame self.old self.new }
        ensures runs { Runs self.old.desk self.new.desk }
    {
        self.is_called = false;
        let is_idle = match self.polls {
            Polls::Asked { is_idle } => is_idle,
            _ => return Err(AllocError),
        };
        match *answer {
            Answer::Callback(callback) => self.serve(callback, is_idle),
            Answer::NoCallback => self.end_polls(is_idle),
            _ => Err(AllocError),
        }
    }

    /// The next step of a callback, or what comes behind it.
    pub(crate) fn serve(&mut self, callback: Callback, is_idle: bool) -> Result<(), AllocError>
        ensures same { IsSame self.old self.new }
        ensures runs { Runs self.old.desk self.new.desk }
    {
        self.polls = Polls::Serving { callback, is_idle };
        match self.step_to_serve(callback) {
            Some(ask) => self.must(&ask),
            None if is_idle => self.end_polls(true),
            None => {
                self.ask_poll(Some(callback.page), false);
                Ok(())
            }
        }
    }

    /// The moment is over: the statement goes on.
    fn end_polls(&mut self, is_idle: bool) -> Result<(), AllocError>
        ensures same { IsSame self.old self.new }
        ensures runs { Runs self.old.desk self.new.desk }
    {
        self.polls = Polls::Off;
        if is_idle { Ok(()) } else { self.advance() }
    }

    /// The next step by which the page is given up, or held in the level that may be kept. A page in use is marked and kept.
    fn step_to_serve(&mut self, callback: Callback) -> Option<Ask>
        ensures same { IsSame self.old self.new }
        ensures runs { Runs self.old.desk self.new.desk }
        ensures kept { is_none result ≡ is_passed_over self.old.desk.cache callback }
        ensures due { IfSome result (GivesUp self.old.desk.cache callback.page (causes.CallbackOf callback.asker) callback.keep) }
    {
        if self.desk.cache().pinned(callback.page) {
            self.desk.mark_blocking(callback);
            return None;
        }
        if !is_above(self.desk.cache().level(callback.page), callback.keep) {
            return None;
        }
        let cause = Cause::CallbackOf {
            asker: callback.asker,
        };
        Some(
            self.desk
                .cache()
                .step_to_give_up(callback.page, cause, callback.keep),
        )
    }
}

/// Whether the first level gives more than the second.
fn is_above(level: Level, keep: Level) -> bool
    ensures { result ≡ is_above level keep }
{
    number(level) > number(keep)
}
