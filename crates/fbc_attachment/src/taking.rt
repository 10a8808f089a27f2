//! What an attachment does with an answer.
#![tactic(auto, using(crate::proofs::Runs::run_steps, crate::proofs::Behind::runs_behind))]

ghost use Rattle.std.specs.Prelude.{◌≡◌, IfSome, OnOk, length};
ghost use Rattle.fbc_attachment.specs.Attachment.{IsSame, ask_of, counted};
ghost use Rattle.fbc_attachment.specs.Behind as spec;
ghost use Rattle.fbc_attachment.specs.Behind.{MayTake, RunsBehind};
ghost use Rattle.fbc_attachment.specs.Running.{Runs};

use crate::attachment::Attachment;
use crate::bodies::Body;
use crate::due::Due;
use crate::polls::Polls;
use fbc_cache::CacheFault;
use fbc_kinds::Reply;
use fbc_script::Trap;
use fbc_world::Answer;
use std::alloc::AllocError;

impl Attachment {
    /// Takes the answer to the step that was due. What was read stands in the image, of the size of a page. That the answer is
    /// one to that step is tested for polls alone.
    ///
    /// # Errors
    ///
    /// No step was due, or the image has another size than a page: nothing changes then. Want of memory; an answer to a poll that
    /// is none; a statement or a page that is not built yet (`is_built`, `is_unbuilt`); and what no statement should come to: an
    /// edit that the desk refuses, a step that may not be due, or no step in many turns. The attachment then goes on no more.
    pub fn take(&mut self, answer: &Answer, image: &[u8]) -> Result<(), AllocError>
        ensures may { OnOk result (MayTake self.old image.now) }
        ensures untaken { ¬ MayTake self.old image.now → self.new ≡ self.old }
        ensures same { OnOk result (IsSame (counted self.old) self.new) }
        ensures runs { OnOk result (IfSome self.old.due (λ due. RunsBehind self.old.desk self.new.desk (ask_of due) answer.now image.now)) }
    {
        let due = match self.due {
            Some(due) => due,
            None => return Err(AllocError),
        };
        if image.len() != self.desk.cache().page_size() as usize {
            return Err(AllocError);
        }
        self.count_down();
        self.due = None;
        self.hear_step(due, answer, image)
    }

    /// Takes the answer to the step. After a write that failed no statement is unanswered.
    fn hear_step(&mut self, due: Due, answer: &Answer, image: &[u8]) -> Result<(), AllocError>
        requires size { length image.now ≡ self.old.desk.cache.shape.size }
        ensures same { IsSame self.old self.new }
        ensures runs { OnOk result (RunsBehind self.old.desk self.new.desk (ask_of due) answer.now image.now) }
    {
        if is_write_fault(answer) {
            self.end();
            return Ok(());
        }
        match self.desk.take(&due.ask(), answer, image) {
            Ok(()) => self.go_on(due, answer),
            Err(CacheFault::Damaged { page, rule }) => {
                self.finish(Reply::Damaged { page, rule });
                Ok(())
            }
            Err(CacheFault::Memory) => Err(AllocError),
        }
    }

    /// The trap comes nearer by a step that bears its name.
    fn count_down(&mut self)
        ensures { self.new ≡ counted self.old }
    {
        if let Some(trap) = self.trap
            && trap.count > 1
            && self.bears(trap.name)
        {
            self.trap = Some(Trap {
                name: trap.name,
                count: trap.count - 1,
            });
        }
    }

    /// Goes on behind a step that was answered so.
    fn go_on(&mut self, due: Due, answer: &Answer) -> Result<(), AllocError>
        ensures same { IsSame self.old self.new }
        ensures runs { Runs self.old.desk self.new.desk }
    {
        match due {
            Due::Enter { .. } => {
                self.finish(Reply::Ok);
                Ok(())
            }
            Due::Note => {
                self.end();
                Ok(())
            }
            Due::Poll { .. } => self.hear_poll(answer),
            _ => match self.polls {
                Polls::Serving { callback, is_idle } => self.serve(callback, is_idle),
                _ => self.hear(answer),
            },
        }
    }

    /// No statement is unanswered.
    fn end(&mut self)
        ensures same { IsSame self.old self.new }
        ensures runs { Runs self.old.desk self.new.desk }
    {
        self.statement = None;
        self.body = Body::Words;
        self.polls = Polls::Off;
        self.reply = None;
        self.errands.clear();
    }

    /// The statement comes to this reply: no page is in use any more, and the answer is due.
    pub(crate) fn finish(&mut self, reply: Reply)
        ensures same { IsSame self.old self.new }
        ensures runs { Runs self.old.desk self.new.desk }
    {
        self.desk.unpin_all();
        self.errands.clear();
        self.is_faulted = false;
        self.body = Body::Words;
        self.reply = Some(reply);
        self.due = Some(Due::Note);
    }
}

/// Whether a write failed.
fn is_write_fault(answer: &Answer) -> bool
    ensures { result ≡ spec.is_write_fault answer.now }
{
    matches!(answer, Answer::WriteFault)
}
