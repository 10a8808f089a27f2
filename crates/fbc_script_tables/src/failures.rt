//! What fails in a call of the console: calls of the device, a call of the source, and the sink where
//! it has no room.

use fbc_outside::{CallKind, Fail};
use fbc_samples::{Fault, words_of};
use std::alloc::Global;

/// What fails in a call of the console.
#[derive(Debug, Drop)]
pub struct Failures {
    /// Calls of the device.
    pub device: Vec<Fail>,
    /// The call of the source, counted from 1.
    pub source: Option<u64>,
    /// How many bytes the sink has room for.
    pub room: usize,
}

/// The failures of a text, between commas, or `-` where nothing fails. A call of the device is named
/// by its kind and its number among those of its kind, as `read 2`, and behind a write `landed` says
/// that its bytes stand all the same. `source 2` is the second call of the source, and `room 9` the room
/// of the sink, which is 1,000 bytes where it is not named.
pub fn failures_of(alloc: Global, text: &str) -> Result<Failures, Fault> {
    let mut failures = Failures {
        device: Vec::new(alloc),
        source: None,
        room: 1000,
    };
    if text != "-" {
        for failure in text.split(", ") {
            failures.add(&words_of(alloc, failure)?)?;
        }
    }
    Ok(failures)
}

impl Failures {
    /// Adds the failure of these words.
    fn add(&mut self, words: &[&str]) -> Result<(), Fault> {
        match *words {
            ["room", room] => self.room = room.parse()?,
            ["source", number] => self.source = Some(number.parse()?),
            ["write", number, "landed"] => self.device.push(Fail {
                kind: CallKind::Write,
                number: number.parse()?,
                landed: true,
            })?,
            [kind, number] => self.device.push(Fail {
                kind: kind_of(kind)?,
                number: number.parse()?,
                landed: false,
            })?,
            _ => return Err(Fault::Unreadable),
        }
        Ok(())
    }
}

fn kind_of(word: &str) -> Result<CallKind, Fault> {
    match word {
        "length" => Ok(CallKind::Length),
        "read" => Ok(CallKind::Read),
        "write" => Ok(CallKind::Write),
        _ => Err(Fault::Unreadable),
    }
}
