//! The source that gives a script, and the sink that takes the lines of answers.
ghost use Rattle.std.specs.Prelude.{◌≡◌, ℕ, ◌≤◌, List, Option, length, take, IfOk, OnOk, OnErr};
ghost use Rattle.fbc_outside.specs.Faults.{HasCause};
ghost use Rattle.fbc_outside.specs.Streams.{Takes, IsTaken, SinkTakes, SinkTakesSome, SinkStands};

use crate::fault::Failed;

/// Bytes that are read from the first to the last.
pub trait Source {
    // The bytes that are left; `None` where they are not told.
    ghost left: { Self → Option (List ℕ) };

    // How many calls were answered Failed.
    ghost faults: { Self → ℕ };

    /// Takes some of the first bytes left, puts them first into `into`, and says how many they are:
    /// at least one into a buffer with room, but for the end of the input. Failed leaves them all.
    fn read(&mut self, into: &mut [u8]) -> Result<usize, Failed>
        ensures answer { IfOk result (λ n. Takes (left self.old) (left self.new) n into.new) }
        ensures within { IfOk result (λ n. n ≤ length into.new) }
        ensures err { OnErr result (left self.new ≡ left self.old) }
        ensures cause { HasCause (faults self.old) (faults self.new) result };
}

/// What takes bytes one after another.
pub trait Sink {
    // The texts that the sink may have taken so far.
    ghost may_have: { Self → List ℕ → Type 0 };

    // How many calls were answered Failed.
    ghost faults: { Self → ℕ };

    /// Takes some of the first bytes of `from`, at least one if there are any, and says how many.
    /// Failed takes none.
    fn write(&mut self, from: &[u8]) -> Result<usize, Failed>
        ensures count { IfOk result (λ n. IsTaken n from.now) }
        ensures ok { IfOk result
            (λ n. SinkTakes (may_have self.old) (may_have self.new) (take n from.now)) }
        ensures err { OnErr result (SinkStands (may_have self.old) (may_have self.new)) }
        ensures cause { HasCause (faults self.old) (faults self.new) result };
}

/// Writes the whole of `text`, in as many calls as the sink asks for. Where one of them fails the
/// sink has taken the pieces before it, which are a first part of the text.
pub fn write_all<K: Sink>(out: &mut K, text: &[u8]) -> Result<(), Failed>
    ensures ok { OnOk result (SinkTakes (K.may_have out.old) (K.may_have out.new) text.now) }
    ensures err { OnErr result (SinkTakesSome (K.may_have out.old) (K.may_have out.new) text.now) }
    ensures later { K.faults out.old ≤ K.faults out.new }
    ensures cause { HasCause (K.faults out.old) (K.faults out.new) result }
{
    let mut done = 0;
    while done < text.len() {
        let count = out.write(&text[done..])?;
        done += count;
    }
    Ok(())
}
