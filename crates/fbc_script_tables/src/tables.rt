//! The tables, section by section.

use crate::{calls, commands, scripts};
use fbc_samples::{Fault, is_row, push_answer};
use std::alloc::{AllocError, Global};

/// What the lines of a section say.
#[derive(Clone, Copy, Debug, PartialEq, Eq)]
enum Section {
    /// Nothing, since no section has begun.
    Head,
    Commands,
    Script,
    Calls,
}

impl Section {
    /// The section of that name.
    fn named(name: &str) -> Section {
        match name {
            "commands" => Section::Commands,
            "script" => Section::Script,
            "calls" => Section::Calls,
            _ => Section::Head,
        }
    }

    /// Answers one of its lines.
    fn answer(self, alloc: Global, line: &str) -> Result<String, Fault> {
        match self {
            Section::Head => Err(Fault::Unreadable),
            Section::Commands => commands::answer(alloc, line),
            Section::Script => scripts::answer(alloc, line),
            Section::Calls => calls::answer(alloc, line),
        }
    }
}

/// The lines of the tables, each row with its answer. An empty line, a comment, which begins with
/// `#`, and a heading, which begins with `==`, have none.
pub fn answered(alloc: Global, text: &str) -> Result<String, AllocError> {
    let mut out = String::new(alloc);
    let mut section = Section::Head;
    for line in text.lines() {
        out.push_str(line)?;
        if let Some(name) = line.strip_prefix("== ") {
            section = Section::named(name);
        } else if is_row(line) {
            push_answer(section.answer(alloc, line), &mut out)?;
        }
        out.push('\n')?;
    }
    Ok(out)
}
