//! Words and bytes of rows, read and told.

use crate::faults::Fault;
use crate::parts::lay;
use hex::FromHexError;
use std::alloc::{AllocError, Global};
use std::str;

/// The words of a line, between single spaces.
///
/// # Errors
///
/// `Memory`.
pub fn words_of(alloc: Global, line: &str) -> Result<Vec<&str>, Fault> {
    Ok(line.split(' ').collect(alloc)?)
}

/// Lays changes over bytes: each is a place and the bytes from there on in hex digits, as `16:0f`.
///
/// # Errors
///
/// `Unreadable` where a change is none or has no room, `Memory`.
pub fn lay_changes(alloc: Global, changes: &[&str], out: &mut [u8]) -> Result<(), Fault> {
    for change in changes {
        let (at, digits) = change.split_once(':').ok_or(Fault::Unreadable)?;
        let part = bytes_of(alloc, digits)?;
        let at = at.parse()?;
        if at > out.len() || part.len() > out.len() - at {
            return Err(Fault::Unreadable);
        }
        lay(at, &part, out);
    }
    Ok(())
}

fn bytes_of(alloc: Global, digits: &str) -> Result<Vec<u8>, Fault> {
    match hex::decode(alloc, digits) {
        Ok(bytes) => Ok(bytes),
        Err(FromHexError::OutOfMemory) => Err(Fault::Memory),
        Err(_) => Err(Fault::Unreadable),
    }
}

/// Adds bytes that are text.
///
/// # Errors
///
/// `Unreadable` where they are none, `Memory`.
pub fn push_bytes(bytes: &[u8], out: &mut String) -> Result<(), Fault> {
    match str::from_utf8(bytes) {
        Ok(text) => Ok(out.push_str(text)?),
        Err(_) => Err(Fault::Unreadable),
    }
}

/// Adds bytes that are text, with `\n` for the end of a line.
///
/// # Errors
///
/// `Unreadable` where they are none, `Memory`.
pub fn push_lines(bytes: &[u8], out: &mut String) -> Result<(), Fault> {
    for (at, line) in bytes.split(|byte| *byte == b'\n').enumerate() {
        if at > 0 {
            out.push_str("\\n")?;
        }
        push_bytes(line, out)?;
    }
    Ok(())
}

/// Tells what became of bytes: `same`, or how many there are now, and each run of bytes that are
/// other than before by its place and in hex digits. Behind the bytes before, zeros count as theirs.
pub fn push_changes(before: &[u8], after: &[u8], out: &mut String) -> Result<(), AllocError> {
    if before == after {
        return out.push_str("same");
    }
    write!(out, "{} bytes", after.len())?;
    let mut running = false;
    for (at, byte) in after.iter().enumerate() {
        let changed = *byte != before.get(at).copied().unwrap_or(0);
        if changed && !running {
            write!(out, " {at}:")?;
        }
        if changed {
            write!(out, "{byte:02x}")?;
        }
        running = changed;
    }
    Ok(())
}
