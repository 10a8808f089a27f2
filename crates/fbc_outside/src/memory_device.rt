//! A device in memory whose listed calls fail.
ghost use Rattle.std.specs.Prelude.{◌≡◌, ◌+◌, ◌-◌, ◌^◌, ◌<◌, ◌≤◌, [], length, find, Some, IfOk, IfSome};
ghost use Rattle.fbc_outside.specs.Bytes.{ReadsFrom};
ghost use Rattle.fbc_outside.specs.Fails.{failure, is_for, with_landing};

use crate::buffer::{Buffer, copy_from};
use crate::device::Device;
use crate::fault::{CallKind, Fail, Failed, count_fault};
use std::alloc::{AllocError, Global};

/// A device whose bytes stand in memory, and of which chosen calls fail.
#[derive(Debug, Drop)]
pub struct MemoryDevice {
    buffer: Buffer,
    fails: Vec<Fail>,
    lengths: u64,
    reads: u64,
    writes: u64,
    faults: u64,
}

impl MemoryDevice {
    ghost use Rattle.fbc_outside.specs.Memory.{calls_of, fails_of};

    /// A device over a copy of `bytes`, with all memory up to `reach`. The calls that `fails` lists
    /// fail: of several entries for one call the first counts, and of each kind the first 2^64 - 1
    /// calls can fail.
    pub fn new(
        alloc: Global,
        bytes: Vec<u8>,
        reach: u64,
        fails: Vec<Fail>,
    ) -> Result<MemoryDevice, AllocError>
        requires { length bytes.items ≤ reach }
        ensures bytes { IfOk result (λ d. ⟦<MemoryDevice as Device>⟧.bytes d ≡ Some bytes.items) }
        ensures reach { IfOk result (λ d. ⟦<MemoryDevice as Device>⟧.reach d ≡ reach) }
        ensures faults { IfOk result (λ d. ⟦<MemoryDevice as Device>⟧.faults d ≡ 0) }
        ensures lengths { IfOk result (λ d. calls_of CallKind.Length d ≡ 0) }
        ensures reads { IfOk result (λ d. ⟦<MemoryDevice as Device>⟧.reads d ≡ 0) }
        ensures writes { IfOk result (λ d. ⟦<MemoryDevice as Device>⟧.writes d ≡ 0) }
        ensures landings { IfOk result (λ d. ⟦<MemoryDevice as Device>⟧.landings d ≡ []) }
        ensures fails { IfOk result (λ d. fails_of d ≡ fails.items) }
    {
        Ok(MemoryDevice {
            buffer: Buffer::new(alloc, &bytes, reach as usize)?,
            fails,
            lengths: 0,
            reads: 0,
            writes: 0,
            faults: 0,
        })
    }

    /// The bytes as they stand.
    pub fn bytes(&self) -> &[u8]
        ensures { ⟦<MemoryDevice as Device>⟧.bytes self.now ≡ Some result.now }
    {
        &self.buffer.bytes
    }

    /// The bytes as they stand, without the device.
    pub fn into_bytes(self) -> Vec<u8>
        ensures { ⟦<MemoryDevice as Device>⟧.bytes self ≡ Some result.items }
    {
        self.buffer.bytes
    }

    /// How many calls were answered Failed.
    pub fn faults(&self) -> u64
        ensures { result ≡ ⟦<MemoryDevice as Device>⟧.faults self.now }
    {
        self.faults
    }

    /// How many calls there were of `length`.
    pub fn lengths(&self) -> u64
        ensures { result ≡ calls_of CallKind.Length self.now }
    {
        self.lengths
    }

    /// How many calls there were of `read_at`.
    pub fn reads(&self) -> u64
        ensures { result ≡ ⟦<MemoryDevice as Device>⟧.reads self.now }
    {
        self.reads
    }

    /// How many calls there were of `write_at`.
    pub fn writes(&self) -> u64
        ensures { result ≡ ⟦<MemoryDevice as Device>⟧.writes self.now }
    {
        self.writes
    }
}

/// Whether the call of a kind after `calls` earlier ones is listed to fail, and if so whether it
/// lands.
fn failure(fails: &[Fail], kind: CallKind, calls: u64) -> Option<bool>
    ensures listed { result ≡ failure fails.now kind calls }
    ensures counted { IfSome result (λ _. calls < 2 ^ 64 - 1) }
{
    let number = calls.checked_add(1)?;
    let fail = first_for(fails, kind, number)?;
    Some(fail.landed)
}

/// The first entry for the call of a kind and number.
fn first_for(fails: &[Fail], kind: CallKind, number: u64) -> Option<Fail>
    ensures { result ≡ find (is_for kind number) fails.now }
{
    fails.iter().copied().find(|fail| fail.is_for(kind, number))
}

impl Device for MemoryDevice {
    ghost use Rattle.fbc_outside.specs.Memory.{IsCall, bytes_of, bytes_after, calls_of, failing, faults_of, landings_now, reach_of, memory_within};
    ghost use Rattle.fbc_outside.specs.declared.fault.CallKind.{CallKind};

    ghost bytes = { λ d. Some (bytes_of d) };

    ghost faults = { faults_of };

    ghost reads = { calls_of CallKind.Read };

    ghost writes = { calls_of CallKind.Write };

    ghost landings = { landings_now };

    ghost reach = { reach_of };

    ghost within = { memory_within };

    fn reach(&self) -> u64 {
        self.buffer.limit as u64
    }

    fn length(&mut self) -> Result<u64, Failed>
        ensures call { IsCall CallKind.Length self.old self.new result }
        ensures answer { IfOk result (λ n. n ≡ length (bytes_of self.old)) }
        ensures bytes { bytes_of self.new ≡ bytes_of self.old }
    {
        let failing = failure(&self.fails, CallKind::Length, self.lengths);
        self.lengths = self.lengths.saturating_add(1);
        match failing {
            None => Ok(self.buffer.bytes.len() as u64),
            Some(_) => Err(count_fault(&mut self.faults)),
        }
    }

    fn read_at(&mut self, at: u64, into: &mut [u8]) -> Result<usize, Failed>
        ensures call { IsCall CallKind.Read self.old self.new result }
        ensures answer { IfOk result (λ n. ReadsFrom (Some (bytes_of self.old)) at n into.new) }
        ensures bytes { bytes_of self.new ≡ bytes_of self.old }
    {
        let failing = failure(&self.fails, CallKind::Read, self.reads);
        self.reads = self.reads.saturating_add(1);
        match failing {
            None => Ok(copy_from(&self.buffer.bytes, at as usize, into)),
            Some(_) => Err(count_fault(&mut self.faults)),
        }
    }

    fn write_at(&mut self, at: u64, from: &[u8]) -> Result<(), Failed>
        requires { at + length from.now ≤ reach_of self.old }
        ensures call { IsCall CallKind.Write self.old self.new result }
        ensures bytes { bytes_of self.new
            ≡ bytes_after (failing CallKind.Write self.old) at from.now (bytes_of self.old) }
        ensures landings { landings_now self.new
            ≡ with_landing (landings_now self.old) (failing CallKind.Write self.old) }
    {
        let failing = failure(&self.fails, CallKind::Write, self.writes);
        self.writes = self.writes.saturating_add(1);
        match failing {
            None => {
                self.buffer.put(at as usize, from);
                Ok(())
            }
            Some(true) => {
                self.buffer.put(at as usize, from);
                Err(count_fault(&mut self.faults))
            }
            Some(false) => Err(count_fault(&mut self.faults)),
        }
    }
}
