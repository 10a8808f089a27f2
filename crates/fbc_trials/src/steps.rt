//! One step of an attachment.

ghost use Rattle.std.specs.Prelude.{◌<◌};

use crate::ending::End;
use crate::trial::Trial;
use fbc_attachment::{Attachment, Move};
use fbc_kinds::Reply;
use fbc_outside::{Device, Sink};
use fbc_world::{Answer, Ask};

impl<D> Trial<D> {
    /// Whether a step of the name is due: a statement is not answered, or somebody waits for one of its pages.
    pub(crate) fn is_due(&self, k: usize) -> bool
        requires { k < 8 }
    {
        if self.seats[k].statement.is_some() {
            return true;
        }
        match &self.seats[k].attachment {
            Some(attachment) => self.floor.region.called(attachment.who()),
            None => false,
        }
    }

    /// The owner at a name.
    fn owner_at(&self, k: usize) -> Option<u32>
        requires { k < 8 }
    {
        match &self.seats[k].attachment {
            Some(attachment) => Some(attachment.who()),
            None => None,
        }
    }

    /// The attachment of a name dies, and so does its statement.
    pub(crate) fn die(&mut self, k: usize)
        requires { k < 8 }
    {
        if let Some(who) = self.owner_at(k) {
            self.floor.die(who);
        }
        self.printed = self.floor.length();
        self.seats[k].leave();
    }

    /// Where nobody is at a name, an attachment is there that is to come.
    fn seat(&mut self, k: usize) -> Result<(), End>
        requires { k < 8 }
    {
        if self.seats[k].attachment.is_none() {
            self.seats[k].attachment = Some(self.newcomer(k)?);
        }
        Ok(())
    }

    /// An attachment that is to come by the name.
    fn newcomer(&self, k: usize) -> Result<Attachment, End>
        requires { k < 8 }
    {
        let who = match self.floor.region.owners().checked_add(1) {
            Some(who) => who,
            None => return Err(End::OutOfMemory),
        };
        let mut attachment = Attachment::new(
            self.alloc,
            who,
            self.seats[k].name,
            self.settings.buffers,
            self.shape.get(),
        )?;
        if let Some(statement) = self.seats[k].statement {
            let _busy = attachment.give(statement);
        }
        Ok(attachment)
    }
}

impl<D: Device> Trial<D> {
    /// One step of a name that is due, or its death by a trap: whether it was quiet.
    pub(crate) fn step<K: Sink>(&mut self, k: usize, out: &mut K) -> Result<bool, End>
        requires { k < 8 }
    {
        self.seat(k)?;
        match self.next(k) {
            Move::Die => {
                self.die(k);
                let name = self.seats[k].name;
                self.tell_death(name, out)?;
                Ok(false)
            }
            Move::Idle => Err(End::Refused { line: self.line }),
            Move::Answered(reply) => self.perform(k, Ask::Note { reply }, out),
            Move::Ask(ask) => self.perform(k, ask, out),
        }
    }

    /// What the attachment does next. An idle one is called.
    fn next(&mut self, k: usize) -> Move
        requires { k < 8 }
    {
        match &mut self.seats[k].attachment {
            Some(attachment) => {
                if !attachment.is_busy() {
                    attachment.called();
                }
                self.floor.next(attachment)
            }
            None => Move::Idle,
        }
    }

    /// Takes a step: whether it was quiet.
    fn perform<K: Sink>(&mut self, k: usize, ask: Ask, out: &mut K) -> Result<bool, End>
        requires { k < 8 }
    {
        if self.taken >= self.settings.budget {
            return Err(End::Budget { line: self.line });
        }
        self.taken += 1;
        if let Ask::Enter { .. } = ask {
            let name = self.seats[k].name;
            if self.names.push(name).is_err() {
                return Err(End::OutOfMemory);
            }
            self.seats[k].is_shut = false;
        }
        let is_poll = matches!(ask, Ask::Poll { .. });
        let answer = self.answer_to(k, ask)?;
        self.tell_events(out)?;
        self.hear(k, &answer, is_poll, out)
    }

    /// The answer to a step.
    fn answer_to(&mut self, k: usize, ask: Ask) -> Result<Answer, End>
        requires { k < 8 }
    {
        let attachment = match self.seats[k].attachment.take() {
            Some(attachment) => attachment,
            None => return Err(End::Refused { line: self.line }),
        };
        let answer = self.floor.perform(&attachment, ask);
        self.seats[k].attachment = Some(attachment);
        match answer {
            Ok(Some(answer)) => Ok(answer),
            Ok(None) => Err(End::Refused { line: self.line }),
            Err(end) => Err(end),
        }
    }

    /// The attachment takes the answer to its step: whether the step was quiet.
    fn hear<K: Sink>(
        &mut self,
        k: usize,
        answer: &Answer,
        is_poll: bool,
        out: &mut K,
    ) -> Result<bool, End>
        requires { k < 8 }
    {
        if !is_poll {
            self.seats[k].holder = holder_in(answer);
        }
        if matches!(answer, Answer::WriteFault) {
            self.shut(k, out)?;
            return Ok(false);
        }
        self.take(k, answer)?;
        Ok(matches!(answer, Answer::NotYet { .. } | Answer::NoCallback))
    }

    /// The attachment takes an answer. Where its statement is answered, none is unanswered.
    fn take(&mut self, k: usize, answer: &Answer) -> Result<(), End>
        requires { k < 8 }
    {
        if let Some(attachment) = &mut self.seats[k].attachment {
            if self.floor.tell(attachment, answer).is_err() {
                return Err(stop(attachment, self.line));
            }
            if !attachment.is_busy() {
                self.seats[k].statement = None;
            }
        }
        Ok(())
    }

    /// A write of the attachment failed: it is dead, and its statement is answered so.
    fn shut<K: Sink>(&mut self, k: usize, out: &mut K) -> Result<(), End>
        requires { k < 8 }
    {
        if self.seats[k].statement.is_some() {
            let line = self.seats[k].line;
            let name = self.seats[k].name;
            self.answer(line, name, &Reply::Shut, out)?;
        }
        self.seats[k].leave();
        self.seats[k].is_shut = true;
        Ok(())
    }
}

/// Why an attachment goes on no more.
fn stop(attachment: &Attachment, line: u32) -> End {
    if attachment.is_unbuilt() {
        End::Later { line }
    } else {
        End::Refused { line }
    }
}

/// The holder for which the answer says that its owner waits.
fn holder_in(answer: &Answer) -> Option<u32> {
    match answer {
        Answer::NotYet { holder } => Some(*holder),
        _ => None,
    }
}
