//! Bytes from a place on, and what they make of zeros.

ghost use Rattle.std.specs.Prelude.{◌≡◌, length as list_length, IfOk};

use std::alloc::{AllocError, Global};

/// Bytes from a place on.
pub type Part = (usize, &'static [u8]);

/// Lays bytes over others from a place on, where they have room.
pub fn lay(at: usize, part: &[u8], out: &mut [u8]) {
    if at <= out.len() && part.len() <= out.len() - at {
        out[at..at + part.len()].copy_from_slice(part);
    }
}

/// Lays the parts that have room. A later part overwrites an earlier one.
pub fn lay_all(parts: &[Part], out: &mut [u8]) {
    for (at, part) in parts {
        lay(*at, part, out);
    }
}

/// The page of that number in a file of pages of 1,024 bytes: zeros, but for the parts that begin
/// in it, and then for the changes, whose places count from the page's first byte.
pub fn page_of(parts: &[Part], number: u32, changes: &[Part]) -> [u8; 1024] {
    let start = number as usize * 1024;
    let mut bytes = [0; 1024];
    for (at, part) in parts {
        if start <= *at {
            lay(*at - start, part, &mut bytes);
        }
    }
    lay_all(changes, &mut bytes);
    bytes
}

/// A file of so many bytes: zeros, but for the parts.
pub fn file_of(alloc: Global, length: usize, parts: &[Part]) -> Result<Vec<u8>, AllocError>
    ensures { IfOk result (λ bytes. list_length bytes.items ≡ length) }
{
    let mut bytes = vec![in alloc; 0; length]?;
    lay_all(parts, &mut bytes);
    Ok(bytes)
}
