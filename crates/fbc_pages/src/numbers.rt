//! Numbers in pages: two or four bytes, the lowest first.

ghost use Rattle.std.specs.Prelude.{◌≡◌, ◌+◌, ◌*◌, ◌<◌, ◌≤◌, ℕ, length, take, drop, slice_index, slice_range, replicate, IfOk};
ghost use Rattle.fbc_kinds.specs.Head.{number_at, is_zeros, little_bytes};

use byteorder::{ByteOrder, LittleEndian};
use std::alloc::{AllocError, Global};

/// The number in the two bytes from place `at`.
pub fn read_u16(bytes: &[u8], at: usize) -> u16
    requires { at + 2 ≤ length bytes.now }
    ensures { result ≡ number_at at (at + 2) bytes.now }
{
    LittleEndian::read_u16(&bytes[at..at + 2])
}

/// The number in the four bytes from place `at`.
pub fn read_u32(bytes: &[u8], at: usize) -> u32
    requires { at + 4 ≤ length bytes.now }
    ensures { result ≡ number_at at (at + 4) bytes.now }
{
    LittleEndian::read_u32(&bytes[at..at + 4])
}

/// `count` numbers of four bytes from place `from`.
pub fn read_numbers(
    alloc: Global,
    from: usize,
    count: usize,
    bytes: &[u8],
) -> Result<Vec<u32>, AllocError>
    requires { from + 4 * count ≤ length bytes.now }
    ensures count { IfOk result (λ numbers. length numbers.items ≡ count) }
    ensures numbers { IfOk result (λ numbers. (i : ℕ) → i < count → slice_index numbers.items i ≡ number_at (from + 4 * i) (from + 4 * i + 4) bytes.now) }
{
    let mut numbers = Vec::with_capacity(alloc, count)?;
    for i in 0..count {
        numbers.push(read_u32(bytes, from + 4 * i))?;
    }
    Ok(numbers)
}

/// Whether there are only zeros.
pub fn is_zeros(bytes: &[u8]) -> bool
    ensures { result ≡ is_zeros bytes.now }
{
    bytes.iter().all(|byte| *byte == 0)
}

/// Writes a number into the four bytes from place `at`. The other bytes stay as they were.
pub fn write_u32(number: u32, at: usize, out: &mut [u8])
    requires { at + 4 ≤ length out.old }
    ensures before { take at out.new ≡ take at out.old }
    ensures number { slice_range out.new at (at + 4) ≡ little_bytes 4 number }
    ensures after { drop (at + 4) out.new ≡ drop (at + 4) out.old }
{
    LittleEndian::write_u32(&mut out[at..at + 4], number);
}

/// Writes `count` numbers of four bytes from place `at`: these, and then zeros. The other bytes
/// stay as they were.
pub fn write_numbers(numbers: &[u32], at: usize, count: usize, out: &mut [u8])
    requires { at + 4 * count ≤ length out.old }
    ensures before { take at out.new ≡ take at out.old }
    ensures numbers { (i : ℕ) → i < count → slice_range out.new (at + 4 * i) (at + 4 * i + 4) ≡ little_bytes 4 (slice_index numbers.now i) }
    ensures after { drop (at + 4 * count) out.new ≡ drop (at + 4 * count) out.old }
{
    for i in 0..count {
        write_u32(number_or_zero(numbers, i), at + 4 * i, out);
    }
}

fn number_or_zero(numbers: &[u32], i: usize) -> u32
    ensures { result ≡ slice_index numbers.now i }
{
    if i < numbers.len() { numbers[i] } else { 0 }
}

/// Writes zeros.
pub fn write_zeros(out: &mut [u8])
    ensures { out.new ≡ replicate (length out.old) 0 }
{
    out.fill(0);
}
