//! Calls of the console over a device, a source and a sink in memory: how each ends, which lines its
//! sink took, and what became of the file.

ghost use Rattle.std.specs.Prelude.{◌≤◌, length as list_length};

use crate::commands::arguments_of;
use crate::failures::{Failures, failures_of};
use crate::quotes::quoted;
use fbc_console::{Ended, console};
use fbc_outside::{MemoryDevice, MemorySink, MemorySource};
use fbc_samples::{Fault, file_named, push_changes, push_lines, words_of};
use std::alloc::Global;

/// How far the devices reach, in bytes.
const REACH: usize = 262_144;

/// Answers one line: `console` and the words of a command, the file before, what fails, and the script
/// in quotes, with ` | ` between them. What is told are the number by which the call ends, the lines
/// that the sink took, and what became of the file.
pub fn answer(alloc: Global, line: &str) -> Result<String, Fault> {
    let (words, rest) = line.split_once(" | ").ok_or(Fault::Unreadable)?;
    let (file, rest) = rest.split_once(" | ").ok_or(Fault::Unreadable)?;
    let (failures, script) = rest.split_once(" | ").ok_or(Fault::Unreadable)?;
    let words = arguments_of(alloc, words)?;
    let before = file_named(alloc, &words_of(alloc, file)?, REACH)?;
    let failures = failures_of(alloc, failures)?;
    let script = quoted(alloc, script)?;
    match words.as_slice() {
        [first, words @ ..] if first.as_str() == "console" => call(
            alloc, words, before, failures, script,
        ),
        _ => Err(Fault::Unreadable),
    }
}

/// Calls the console over a file, and tells how it ends.
fn call(
    alloc: Global,
    words: &[String],
    before: Vec<u8>,
    failures: Failures,
    script: Vec<u8>,
) -> Result<String, Fault>
    requires { list_length before.items ≤ 262144 }
{
    let Failures {
        device,
        source,
        room,
    } = failures;
    let device = MemoryDevice::new(alloc, before.clone()?, REACH as u64, device)?;
    let mut source = MemorySource::new(script, source);
    let mut sink = MemorySink::new(alloc, room)?;
    let Ended { status, device } = console(alloc, words, device, &mut source, &mut sink);
    let mut out = format!(in alloc; "{} \"", status.number())?;
    push_lines(sink.bytes(), &mut out)?;
    out.push_str("\" ")?;
    push_changes(&before, device.bytes(), &mut out)?;
    Ok(out)
}
