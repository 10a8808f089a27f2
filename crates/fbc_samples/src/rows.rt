//! The rows of tables: which lines are some, the files that they name, and their answers.

ghost use Rattle.std.specs.Prelude.{◌≤◌, length as list_length, IfOk};

use crate::faults::Fault;
use crate::files::{FRESH, LATE_FAULT, ONE_ROW, TWO_RELATIONS, UNFINISHED_UPDATE};
use crate::parts::{Part, file_of};
use crate::words::lay_changes;
use std::alloc::{AllocError, Global};

/// Whether a line is a row, and neither empty nor a comment, which begins with `#`.
pub fn is_row(line: &str) -> bool {
    !line.is_empty() && !line.starts_with('#')
}

/// The parts of the file that a row names.
///
/// # Errors
///
/// `Unreadable` where no file has the name.
pub fn parts_named(name: &str) -> Result<&'static [Part], Fault> {
    match name {
        "zeros" => Ok(&[]),
        "fresh" => Ok(FRESH),
        "one_row" => Ok(ONE_ROW),
        "two_relations" => Ok(TWO_RELATIONS),
        "unfinished_update" => Ok(UNFINISHED_UPDATE),
        "late_fault" => Ok(LATE_FAULT),
        _ => Err(Fault::Unreadable),
    }
}

/// The file of these words, of at most so many bytes: its name, its length and its changes.
///
/// # Errors
///
/// `Unreadable` where the words are none or the file is longer, `Memory`.
pub fn file_named(alloc: Global, words: &[&str], most: usize) -> Result<Vec<u8>, Fault>
    ensures { IfOk result (λ bytes. list_length bytes.items ≤ most) }
{
    let [name, length, changes @ ..] = words else {
        return Err(Fault::Unreadable);
    };
    let length = length.parse()?;
    if length > most {
        return Err(Fault::Unreadable);
    }
    let mut bytes = file_of(alloc, length, parts_named(name)?)?;
    lay_changes(alloc, changes, &mut bytes)?;
    Ok(bytes)
}

/// Adds the answer of a row behind it.
pub fn push_answer(answer: Result<String, Fault>, out: &mut String) -> Result<(), AllocError> {
    out.push_str(" => ")?;
    match answer {
        Ok(answer) => out.push_str(&answer),
        Err(Fault::Unreadable) => out.push_str("unreadable"),
        Err(Fault::Memory) => Err(AllocError),
    }
}
