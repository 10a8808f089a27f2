//! The lines that answer statements.

use crate::ending::End;
use crate::replies::Words;
use crate::trial::Trial;
use fbc_kinds::Reply;
use fbc_outside::{Sink, write_all};

impl<D> Trial<D> {
    /// Writes the line that answers what a line gave at a name.
    pub(crate) fn answer<K: Sink>(
        &self,
        line: u32,
        name: u8,
        reply: &Reply,
        out: &mut K,
    ) -> Result<(), End> {
        let mut words = Words::new(self.alloc, self.names.as_slice());
        words.number(line)?;
        words.counted(" a", name as u32)?;
        words.word(" ")?;
        words.reply(reply)?;
        words.word("\n")?;
        write(out, words.text.as_slice())
    }

    /// Writes the line that tells of a death.
    pub(crate) fn tell_death<K: Sink>(&self, name: u8, out: &mut K) -> Result<(), End> {
        let line = self.line;
        let text = format!(in self.alloc; "{line} a{name} killed\n")?;
        write(out, text.as_bytes())
    }
}

/// Writes a text.
pub(crate) fn write<K: Sink>(out: &mut K, text: &[u8]) -> Result<(), End> {
    match write_all(out, text) {
        Ok(()) => Ok(()),
        Err(_) => Err(End::SinkFault),
    }
}
