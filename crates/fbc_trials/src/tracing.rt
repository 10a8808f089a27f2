//! The lines that tell of events.

use crate::answering::write;
use crate::ending::End;
use crate::replies::Words;
use crate::trial::Trial;
use fbc_kinds::Reply;
use fbc_levels::{Level, Resource, Series};
use fbc_outside::Sink;
use fbc_world::{Act, Cause, Event};
use std::alloc::AllocError;

impl<D> Trial<D> {
    /// Tells of the events since the last ones: of the answers, and where that is wanted of all others.
    pub(crate) fn tell_events<K: Sink>(&mut self, out: &mut K) -> Result<(), End> {
        let length = self.floor.length();
        for k in self.printed..length {
            if let Some(event) = self.floor.event(k)? {
                self.tell_event(&event, out)?;
            }
        }
        self.printed = length;
        Ok(())
    }

    /// Tells of one event.
    fn tell_event<K: Sink>(&self, event: &Event, out: &mut K) -> Result<(), End> {
        match &event.act {
            Act::Note { reply } => self.tell_note(event.actor, reply, out),
            act if self.settings.trace => self.tell_act(event.actor, act, out),
            _ => Ok(()),
        }
    }

    /// Tells of an answer.
    fn tell_note<K: Sink>(&self, owner: u32, reply: &Reply, out: &mut K) -> Result<(), End> {
        let name = self.name_of(owner);
        for seat in &self.seats {
            if seat.name == name {
                return self.answer(seat.line, name, reply, out);
            }
        }
        Ok(())
    }

    /// Tells of an act that is no answer.
    fn tell_act<K: Sink>(&self, owner: u32, act: &Act, out: &mut K) -> Result<(), End> {
        let mut words = Words::new(self.alloc, self.names.as_slice());
        words.named("  ", owner)?;
        if push_act(&mut words, act)? {
            words.word("\n")?;
            return write(out, words.text.as_slice());
        }
        Ok(())
    }
}

/// Adds the words of an act, if it is one of which is told.
fn push_act(words: &mut Words<'_>, act: &Act) -> Result<bool, AllocError> {
    match act {
        Act::Grant { resource, level } => push_lock(words, " grant ", *resource, *level)?,
        Act::Lower { resource, level } => push_lock(words, " lower ", *resource, *level)?,
        Act::Read { page, fault: _ } => words.counted(" read ", *page)?,
        Act::Write {
            page,
            cause,
            failed: _,
        } => push_write(words, *page, *cause)?,
        Act::Reap { owner, by: _ } => words.named(" reap ", *owner)?,
        _ => return Ok(false),
    }
    Ok(true)
}

/// Adds the words of a lock that is granted or lowered.
fn push_lock(
    words: &mut Words<'_>,
    verb: &str,
    resource: Resource,
    level: Level,
) -> Result<(), AllocError> {
    words.word(verb)?;
    words.word(match resource.series {
        Series::Page => "page ",
        Series::Transaction => "transaction ",
        Series::Relation => "relation ",
    })?;
    let key = resource.key;
    let text = format!(in words.alloc; "{key} {level}")?;
    words.word(text.as_str())
}

/// Adds the words of a write.
fn push_write(words: &mut Words<'_>, page: u32, cause: Cause) -> Result<(), AllocError> {
    words.counted(" write ", page)?;
    match cause {
        Cause::Commit => words.word(" commit"),
        Cause::CallbackOf { asker } => words.named(" callback ", asker),
        Cause::Cycle { high } => words.counted(" cycle ", high),
        Cause::Evict { wanted } => words.counted(" evict ", wanted),
        Cause::Mark => words.word(" mark"),
        Cause::Detach => words.word(" detach"),
    }
}
