//! Bytes in memory, all of which is taken at once.
ghost use Rattle.std.specs.Prelude.{◌≡◌, ◌+◌, ◌-◌, ◌≤◌, ◌++◌, length, take, drop, replicate, vec_capacity, IfOk, Some};
ghost use Rattle.fbc_outside.specs.Bytes.{written, ReadsFrom};

use std::alloc::{AllocError, Global};

/// Bytes that never outgrow a limit. The memory up to it was taken when they were made.
#[derive(Debug, Drop)]
pub struct Buffer {
    pub bytes: Vec<u8>,
    pub limit: usize,
    ghost within: { length bytes.items ≤ limit },
    ghost room: { limit ≤ vec_capacity bytes },
}

impl Buffer {
    /// A copy of `bytes` with room up to `limit`.
    pub fn new(alloc: Global, bytes: &[u8], limit: usize) -> Result<Buffer, AllocError>
        requires { length bytes.now ≤ limit }
        ensures bytes { IfOk result (λ b. b.bytes.items ≡ bytes.now) }
        ensures limit { IfOk result (λ b. b.limit ≡ limit) }
    {
        let mut held = Vec::with_capacity(alloc, limit)?;
        held.extend_from_slice(bytes).unwrap();
        Ok(Buffer { bytes: held, limit })
    }

    /// Adds `from` at the end.
    pub fn append(&mut self, from: &[u8])
        requires { length self.old.bytes.items + length from.now ≤ self.old.limit }
        ensures bytes { self.new.bytes.items ≡ self.old.bytes.items ++ from.now }
        ensures limit { self.new.limit ≡ self.old.limit }
    {
        self.bytes.extend_from_slice(from).unwrap();
    }

    /// Puts `from` at `at`, with zeros in a gap before it.
    pub fn put(&mut self, at: usize, from: &[u8])
        requires { at + length from.now ≤ self.old.limit }
        ensures bytes { self.new.bytes.items ≡ written at from.now self.old.bytes.items }
        ensures limit { self.new.limit ≡ self.old.limit }
    {
        grow(&mut self.bytes, at + from.len());
        overwrite(&mut self.bytes, at, from);
    }
}

/// Copies the bytes that stand from `at` on, as many as fit, to the front of `into`, and says how
/// many they are.
pub fn copy_from(bytes: &[u8], at: usize, into: &mut [u8]) -> usize
    ensures { ReadsFrom (Some bytes.now) at result into.new }
{
    let start = at.min(bytes.len());
    let rest = &bytes[start..];
    let count = rest.len().min(into.len());
    into[..count].copy_from_slice(&rest[..count]);
    count
}

/// Adds zeros up to a length of `stop`, for which there is room.
fn grow(bytes: &mut Vec<u8>, stop: usize)
    requires { stop ≤ vec_capacity bytes.old }
    ensures items { bytes.new.items
        ≡ bytes.old.items ++ replicate (stop - length bytes.old.items) 0 }
    ensures capacity { vec_capacity bytes.old ≤ vec_capacity bytes.new }
{
    if bytes.len() < stop {
        bytes.resize(stop, 0).unwrap();
    }
}

/// Puts `from` in the place of as many bytes from `at` on.
fn overwrite(bytes: &mut [u8], at: usize, from: &[u8])
    requires { at + length from.now ≤ length bytes.old }
    ensures { bytes.new ≡ take at bytes.old ++ from.now ++ drop (at + length from.now) bytes.old }
{
    bytes[at..at + from.len()].copy_from_slice(from);
}
