//! A device in memory that never fails.
ghost use Rattle.std.specs.Prelude.{◌≡◌, ◌≤◌, [], length, Some, IfOk};

use crate::buffer::{Buffer, copy_from};
use crate::device::Device;
use crate::fault::Failed;
use std::alloc::{AllocError, Global};

/// A device whose bytes stand in memory, and no call of which fails.
#[derive(Debug, Drop)]
pub struct SteadyDevice {
    buffer: Buffer,
    reads: u64,
    writes: u64,
}

impl SteadyDevice {
    /// A device over a copy of `bytes`, with all memory up to `reach`.
    pub fn new(alloc: Global, bytes: Vec<u8>, reach: u64) -> Result<SteadyDevice, AllocError>
        requires { length bytes.items ≤ reach }
        ensures bytes { IfOk result (λ d. ⟦<SteadyDevice as Device>⟧.bytes d ≡ Some bytes.items) }
        ensures reach { IfOk result (λ d. ⟦<SteadyDevice as Device>⟧.reach d ≡ reach) }
        ensures faults { IfOk result (λ d. ⟦<SteadyDevice as Device>⟧.faults d ≡ 0) }
        ensures reads { IfOk result (λ d. ⟦<SteadyDevice as Device>⟧.reads d ≡ 0) }
        ensures writes { IfOk result (λ d. ⟦<SteadyDevice as Device>⟧.writes d ≡ 0) }
        ensures landings { IfOk result (λ d. ⟦<SteadyDevice as Device>⟧.landings d ≡ []) }
    {
        Ok(SteadyDevice {
            buffer: Buffer::new(alloc, &bytes, reach as usize)?,
            reads: 0,
            writes: 0,
        })
    }

    /// The bytes as they stand.
    pub fn bytes(&self) -> &[u8]
        ensures { ⟦<SteadyDevice as Device>⟧.bytes self.now ≡ Some result.now }
    {
        &self.buffer.bytes
    }

    /// How many calls there were of `read_at`.
    pub fn reads(&self) -> u64
        ensures { result ≡ ⟦<SteadyDevice as Device>⟧.reads self.now }
    {
        self.reads
    }

    /// How many calls there were of `write_at`.
    pub fn writes(&self) -> u64
        ensures { result ≡ ⟦<SteadyDevice as Device>⟧.writes self.now }
    {
        self.writes
    }
}

impl Device for SteadyDevice {
    ghost use Rattle.fbc_outside.specs.Steady.{steady_within};

    ghost bytes = { λ d. Some d.buffer.bytes.items };

    ghost faults = { λ _. 0 };

    ghost reads = { λ d. d.reads };

    ghost writes = { λ d. d.writes };

    ghost landings = { λ _. [] };

    ghost reach = { λ d. d.buffer.limit };

    ghost within = { steady_within };

    fn reach(&self) -> u64 {
        self.buffer.limit as u64
    }

    fn length(&mut self) -> Result<u64, Failed> {
        Ok(self.buffer.bytes.len() as u64)
    }

    fn read_at(&mut self, at: u64, into: &mut [u8]) -> Result<usize, Failed> {
        self.reads = self.reads.saturating_add(1);
        Ok(copy_from(&self.buffer.bytes, at as usize, into))
    }

    fn write_at(&mut self, at: u64, from: &[u8]) -> Result<(), Failed> {
        self.writes = self.writes.saturating_add(1);
        self.buffer.put(at as usize, from);
        Ok(())
    }
}
