//! Rounds: each name that is due takes a step in turn.

ghost use Rattle.std.specs.Prelude.{◌<◌};

use crate::ending::End;
use crate::trial::Trial;
use fbc_kinds::Reply;
use fbc_outside::{Device, Sink};

impl<D> Trial<D> {
    /// Whether a step of some name is due.
    fn is_any_due(&self) -> bool {
        for k in 0..8 {
            if self.is_due(k) {
                return true;
            }
        }
        false
    }

    /// Writes for a name whose statement waits for a lock that it does so.
    pub(crate) fn tell_waiting<K: Sink>(&self, k: usize, out: &mut K) -> Result<(), End>
        requires { k < 8 }
    {
        let seat = &self.seats[k];
        match seat.holder {
            Some(holder) if seat.statement.is_some() => {
                self.answer(seat.line, seat.name, &Reply::Waits { holder }, out)
            }
            _ => Ok(()),
        }
    }
}

impl<D: Device> Trial<D> {
    /// Rounds until nothing is due, or two rounds running were quiet.
    pub(crate) fn rounds<K: Sink>(&mut self, out: &mut K) -> Result<(), End> {
        let mut quiet = 0u32;
        for _ in 0..u32::MAX {
            if quiet >= 2 || !self.is_any_due() {
                return Ok(());
            }
            quiet = if self.round(out)? { quiet + 1 } else { 0 };
        }
        Ok(())
    }

    /// One round: whether it was quiet.
    fn round<K: Sink>(&mut self, out: &mut K) -> Result<bool, End> {
        let mut is_quiet = true;
        for k in 0..8 {
            if self.is_due(k) && !self.step(k, out)? {
                is_quiet = false;
            }
        }
        Ok(is_quiet)
    }

    /// So many steps of one name, or fewer where it is not due any more, was quiet twice running, or dies.
    pub(crate) fn take_steps<K: Sink>(
        &mut self,
        k: usize,
        count: u32,
        out: &mut K,
    ) -> Result<(), End>
        requires { k < 8 }
    {
        let mut quiet = 0u32;
        for _ in 0..count {
            if quiet >= 2 || !self.is_due(k) {
                break;
            }
            let was_there = self.seats[k].attachment.is_some();
            quiet = if self.step(k, out)? { quiet + 1 } else { 0 };
            if was_there && self.seats[k].attachment.is_none() {
                break;
            }
        }
        self.tell_waiting(k, out)
    }
}
