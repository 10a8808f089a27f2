//! The lines of a script.

ghost use Rattle.std.specs.Prelude.{◌<◌, IfSome};

use crate::ending::End;
use crate::trial::Trial;
use fbc_attachment::is_built;
use fbc_kinds::Reply;
use fbc_outside::{Device, Sink};
use fbc_script::{Line, Order, Statement};

/// How many owners a play has at most.
const MOST_OWNERS: u32 = 65536;

impl<D> Trial<D> {
    /// Gives a statement at a name: whether it is given, or else was answered at once.
    fn give<K: Sink>(&mut self, k: usize, statement: Statement, out: &mut K) -> Result<bool, End>
        requires { k < 8 }
    {
        if let Some(reply) = self.refusal(k, &statement) {
            let line = self.line;
            let name = self.seats[k].name;
            self.answer(line, name, &reply, out)?;
            return Ok(false);
        }
        if !is_built(&statement) {
            return Err(End::Later { line: self.line });
        }
        self.seats[k].statement = Some(statement);
        self.seats[k].line = self.line;
        if let Some(attachment) = &mut self.seats[k].attachment {
            let _busy = attachment.give(statement);
        }
        Ok(true)
    }

    /// The reply to a statement that can't be given.
    fn refusal(&self, k: usize, statement: &Statement) -> Option<Reply>
        requires { k < 8 }
    {
        if self.seats[k].statement.is_some() {
            return Some(Reply::InProgress);
        }
        match statement {
            Statement::Attach => self.attach_refusal(k),
            _ => self.missing_refusal(k),
        }
    }

    /// The reply to an attach that can't be given.
    fn attach_refusal(&self, k: usize) -> Option<Reply>
        requires { k < 8 }
    {
        if self.seats[k].attachment.is_some() {
            return Some(Reply::Attached);
        }
        if self.floor.region.owners() >= MOST_OWNERS {
            return Some(Reply::Room { used: MOST_OWNERS });
        }
        None
    }

    /// The reply to a statement of nobody.
    fn missing_refusal(&self, k: usize) -> Option<Reply>
        requires { k < 8 }
    {
        if self.seats[k].is_shut {
            return Some(Reply::Shut);
        }
        if self.seats[k].attachment.is_none() {
            return Some(Reply::NotAttached);
        }
        None
    }
}

impl<D: Device> Trial<D> {
    /// Plays a line.
    pub(crate) fn order<K: Sink>(&mut self, line: &Line, out: &mut K) -> Result<(), End> {
        self.line = line.number;
        self.taken = 0;
        match line.order {
            Order::Run => self.run(out),
            Order::Reopen => Ok(()),
            Order::Plain { at, .. }
            | Order::Post { at, .. }
            | Order::Step { at, .. }
            | Order::Kill { at }
            | Order::Arm { at, .. } => match seat_of(at) {
                Some(k) => self.order_at(k, line.order, out),
                None => Ok(()),
            },
        }
    }

    /// Plays a line of one name.
    fn order_at<K: Sink>(&mut self, k: usize, order: Order, out: &mut K) -> Result<(), End>
        requires { k < 8 }
    {
        match order {
            Order::Plain { at: _, statement } => self.plain(k, statement, out),
            Order::Post { at: _, statement } => {
                self.give(k, statement, out)?;
                Ok(())
            }
            Order::Step { at: _, count } => self.take_steps(k, count, out),
            Order::Kill { at: _ } => self.kill(k, out),
            Order::Arm { at: _, trap } => self.arm(k, trap, out),
            Order::Run | Order::Reopen => Ok(()),
        }
    }

    /// Gives a statement and runs.
    fn plain<K: Sink>(&mut self, k: usize, statement: Statement, out: &mut K) -> Result<(), End>
        requires { k < 8 }
    {
        let is_given = self.give(k, statement, out)?;
        self.rounds(out)?;
        if is_given && self.seats[k].line == self.line {
            self.tell_waiting(k, out)?;
        }
        Ok(())
    }

    /// Runs, and tells of each name that waits.
    fn run<K: Sink>(&mut self, out: &mut K) -> Result<(), End> {
        self.rounds(out)?;
        for k in 0..8 {
            self.tell_waiting(k, out)?;
        }
        Ok(())
    }
}

/// The place of a name, from 1 to 8, among the eight.
fn seat_of(at: u8) -> Option<usize>
    ensures { IfSome result (λ k. k < 8) }
{
    if at >= 1 && at <= 8 {
        Some(at as usize - 1)
    } else {
        None
    }
}
