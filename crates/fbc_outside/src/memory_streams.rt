//! A source and a sink in memory.
ghost use Rattle.std.specs.Prelude.{◌≡◌, ℕ, ◌-◌, ◌++◌, [], List, length, min, nat_lt, is_err, Some, IfOk, OnOk, OnErr};
ghost use Rattle.fbc_outside.specs.Faults.{bump, count_after};
ghost use Rattle.fbc_outside.specs.MemoryStreams.{is_next};
ghost use Rattle.fbc_outside.specs.Streams.{Takes};

use crate::buffer::{Buffer, copy_from};
use crate::fault::{Failed, count_fault};
use crate::stream::{Sink, Source};
use std::alloc::{AllocError, Global};

/// A source that gives bytes in memory, as many at a time as fit, and of which one chosen call
/// fails.
#[derive(Debug, Drop)]
pub struct MemorySource {
    bytes: Vec<u8>,
    taken: usize,
    fail: Option<u64>,
    reads: u64,
    faults: u64,
}

impl MemorySource {
    ghost use Rattle.fbc_outside.specs.MemoryStreams.{fail_of, reads_of};

    /// A source of `bytes`, whose call of number `fail`, counted from 1, fails.
    pub fn new(bytes: Vec<u8>, fail: Option<u64>) -> MemorySource
        ensures left { ⟦<MemorySource as Source>⟧.left result ≡ Some bytes.items }
        ensures fail { fail_of result ≡ fail }
        ensures reads { reads_of result ≡ 0 }
        ensures faults { ⟦<MemorySource as Source>⟧.faults result ≡ 0 }
    {
        MemorySource {
            bytes,
            taken: 0,
            fail,
            reads: 0,
            faults: 0,
        }
    }

    /// How many calls were answered Failed.
    pub fn faults(&self) -> u64
        ensures { result ≡ ⟦<MemorySource as Source>⟧.faults self.now }
    {
        self.faults
    }
}

impl Source for MemorySource {
    ghost use Rattle.fbc_outside.specs.MemoryStreams.{is_next, left_of, fail_of, reads_of};

    ghost left = { λ s. Some (left_of s) };

    ghost faults = { λ s. s.faults };

    fn read(&mut self, into: &mut [u8]) -> Result<usize, Failed>
        ensures listed { is_err result ≡ is_next (fail_of self.old) (reads_of self.old) }
        ensures count { IfOk result (λ n. n ≡ min (length into.new) (length (left_of self.old))) }
        ensures answer { IfOk result
            (λ n. Takes (Some (left_of self.old)) (Some (left_of self.new)) n into.new) }
        ensures err { OnErr result (left_of self.new ≡ left_of self.old) }
        ensures faults { ⟦<MemorySource as Source>⟧.faults self.new
            ≡ count_after (is_err result) (⟦<MemorySource as Source>⟧.faults self.old) }
        ensures reads { reads_of self.new ≡ bump (reads_of self.old) }
        ensures fail { fail_of self.new ≡ fail_of self.old }
    {
        let failing = is_next(self.fail, self.reads);
        self.reads = self.reads.saturating_add(1);
        if failing {
            return Err(count_fault(&mut self.faults));
        }
        let count = copy_from(&self.bytes, self.taken, into);
        self.taken += count;
        Ok(count)
    }
}

/// Whether the call of number `fail` is the next after `calls` earlier ones.
fn is_next(fail: Option<u64>, calls: u64) -> bool
    ensures { result ≡ is_next fail calls }
{
    match fail {
        Some(number) => calls < number && number - calls == 1,
        None => false,
    }
}

/// A sink that keeps in memory what it takes, whole pieces only, as long as it has room.
#[derive(Debug, Drop)]
pub struct MemorySink {
    buffer: Buffer,
    faults: u64,
}

impl MemorySink {
    ghost use Rattle.fbc_outside.specs.MemoryStreams.{taken_by, room_of};

    /// An empty sink with room for `room` bytes, all of it taken at once.
    pub fn new(alloc: Global, room: usize) -> Result<MemorySink, AllocError>
        ensures taken { IfOk result (λ s. taken_by s ≡ []) }
        ensures may_have { IfOk result (λ s. ⟦<MemorySink as Sink>⟧.may_have s []) }
        ensures room { IfOk result (λ s. room_of s ≡ room) }
        ensures faults { IfOk result (λ s. ⟦<MemorySink as Sink>⟧.faults s ≡ 0) }
    {
        Ok(MemorySink {
            buffer: Buffer::new(alloc, &[], room)?,
            faults: 0,
        })
    }

    /// The bytes that the sink has taken: the only text that it may have taken.
    pub fn bytes(&self) -> &[u8]
        ensures taken { result.now ≡ taken_by self.now }
        ensures may_have { ⟦<MemorySink as Sink>⟧.may_have self.now result.now }
        ensures only { (text : List ℕ)
            → ⟦<MemorySink as Sink>⟧.may_have self.now text → text ≡ result.now }
    {
        &self.buffer.bytes
    }

    /// How many calls were answered Failed.
    pub fn faults(&self) -> u64
        ensures { result ≡ ⟦<MemorySink as Sink>⟧.faults self.now }
    {
        self.faults
    }
}

impl Sink for MemorySink {
    ghost use Rattle.fbc_outside.specs.MemoryStreams.{taken_by, room_of};

    ghost may_have = { λ s text. text ≡ taken_by s };

    ghost faults = { λ s. s.faults };

    fn write(&mut self, from: &[u8]) -> Result<usize, Failed>
        ensures full { is_err result ≡ nat_lt (room_of self.old) (length from.now) }
        ensures count { IfOk result (λ n. n ≡ length from.now) }
        ensures ok { OnOk result (taken_by self.new ≡ taken_by self.old ++ from.now) }
        ensures err { OnErr result (taken_by self.new ≡ taken_by self.old) }
        ensures room { OnErr result (room_of self.new ≡ room_of self.old) }
        ensures room_taken { OnOk result (room_of self.new ≡ room_of self.old - length from.now) }
        ensures faults { ⟦<MemorySink as Sink>⟧.faults self.new
            ≡ count_after (is_err result) (⟦<MemorySink as Sink>⟧.faults self.old) }
    {
        if from.len() > self.buffer.limit - self.buffer.bytes.len() {
            return Err(count_fault(&mut self.faults));
        }
        self.buffer.append(from);
        Ok(from.len())
    }
}
