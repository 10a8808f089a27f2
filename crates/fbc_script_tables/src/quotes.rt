//! Texts in quotes.

use fbc_samples::Fault;
use std::alloc::Global;

/// The bytes of a text in quotes. In it `\n`, `\r` and `\t` stand for these bytes, `\x` for the byte
/// of the two hex digits behind it, and `\{9}` for so many times `x`.
pub fn quoted(alloc: Global, text: &str) -> Result<Vec<u8>, Fault> {
    let inner = text
        .strip_prefix('"')
        .and_then(|rest| rest.strip_suffix('"'))
        .ok_or(Fault::Unreadable)?;
    let mut bytes = Vec::new(alloc);
    for (at, piece) in inner.split('\\').enumerate() {
        let plain = if at == 0 {
            piece
        } else {
            unescape(alloc, piece, &mut bytes)?
        };
        bytes.extend_from_slice(plain.as_bytes())?;
    }
    Ok(bytes)
}

/// Adds the bytes for which the beginning of a text behind a backslash stands, and answers the rest.
fn unescape<'a>(alloc: Global, text: &'a str, bytes: &mut Vec<u8>) -> Result<&'a str, Fault> {
    if let Some(rest) = text.strip_prefix('{') {
        let (count, rest) = rest.split_once('}').ok_or(Fault::Unreadable)?;
        let many: Vec<u8> = vec![in alloc; b'x'; count.parse()?]?;
        bytes.extend_from_slice(&many)?;
        return Ok(rest);
    }
    if let Some(rest) = text.strip_prefix('x') {
        let (digits, rest) = rest.split_at_checked(2).ok_or(Fault::Unreadable)?;
        bytes.push(u8::from_str_radix(digits, 16)?)?;
        return Ok(rest);
    }
    let (byte, rest) = control(text).ok_or(Fault::Unreadable)?;
    bytes.push(byte)?;
    Ok(rest)
}

/// The byte for which a letter stands, and what is behind it.
fn control(text: &str) -> Option<(u8, &str)> {
    if let Some(rest) = text.strip_prefix('n') {
        Some((b'\n', rest))
    } else if let Some(rest) = text.strip_prefix('r') {
        Some((b'\r', rest))
    } else {
        text.strip_prefix('t').map(|rest| (b'\t', rest))
    }
}
