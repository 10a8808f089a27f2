//! Whole files: what the check of a file finds.

use fbc_outside::MemoryDevice;
use fbc_report::text;
use fbc_samples::{Fault, file_named, push_bytes, words_of};
use fbc_validator::{Findings, ValidateFault, validate};
use std::alloc::Global;

/// How far the device of a checked file reaches, in bytes.
const REACH: usize = 65_536;

/// Answers one line: a file, its length in bytes, and its changes. What is found is told in the
/// lines of its report.
pub fn answer(alloc: Global, line: &str) -> Result<String, Fault> {
    let words = words_of(alloc, line)?;
    let bytes = file_named(alloc, &words, REACH)?;
    let mut device = MemoryDevice::new(alloc, bytes, REACH as u64, Vec::new(alloc))?;
    match validate(alloc, &mut device) {
        Ok(findings) => told(alloc, &findings),
        Err(ValidateFault::NotOurs(rule)) => Ok(format!(in alloc; "refused {rule}")?),
        Err(ValidateFault::DeviceFault) => Err(Fault::Unreadable),
        Err(ValidateFault::Memory) => Err(Fault::Memory),
    }
}

/// The lines of the report, between commas.
fn told(alloc: Global, findings: &Findings) -> Result<String, Fault> {
    let report = text(alloc, findings)?;
    let mut out = String::new(alloc);
    for line in report.split(|byte| *byte == b'\n') {
        if !out.is_empty() && !line.is_empty() {
            out.push_str(", ")?;
        }
        push_bytes(line, &mut out)?;
    }
    Ok(out)
}
