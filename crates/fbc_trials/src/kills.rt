//! Deaths, at once or before a later step.

ghost use Rattle.std.specs.Prelude.{◌<◌};

use crate::ending::End;
use crate::trial::Trial;
use fbc_kinds::Reply;
use fbc_outside::Sink;
use fbc_script::Trap;

impl<D> Trial<D> {
    /// The attachment of a name dies.
    pub(crate) fn kill<K: Sink>(&mut self, k: usize, out: &mut K) -> Result<(), End>
        requires { k < 8 }
    {
        if self.seats[k].attachment.is_none() {
            return self.tell_missing(k, out);
        }
        self.die(k);
        let name = self.seats[k].name;
        self.tell_death(name, out)
    }

    /// The attachment of a name is to die before a later step.
    pub(crate) fn arm<K: Sink>(&mut self, k: usize, trap: Trap, out: &mut K) -> Result<(), End>
        requires { k < 8 }
    {
        match &mut self.seats[k].attachment {
            Some(attachment) => {
                attachment.arm(trap);
                Ok(())
            }
            None => self.tell_missing(k, out),
        }
    }

    /// Nobody is at the name.
    fn tell_missing<K: Sink>(&self, k: usize, out: &mut K) -> Result<(), End>
        requires { k < 8 }
    {
        let reply = if self.seats[k].is_shut {
            Reply::Shut
        } else {
            Reply::NotAttached
        };
        self.answer(self.line, self.seats[k].name, &reply, out)
    }

    /// All die.
    pub(crate) fn die_all(&mut self) {
        for k in 0..8 {
            self.die(k);
        }
    }
}
