//! The tables, section by section.

ghost use Rattle.std.specs.Prelude.{◌≡◌};
ghost use Rattle.fbc_kinds.specs.Edits.{IsWithinLimits};
ghost use Rattle.fbc_kinds.specs.HeaderSpelling.{IsFileShape};

use crate::{built, checks, codecs, edits, files, levels, machines, spellings};
use fbc_kinds::{Page, Shape};
use fbc_samples::{Fault, is_row, push_answer};
use std::alloc::{AllocError, Global};

/// What the lines of a section say.
#[derive(Clone, Copy, Debug, PartialEq, Eq)]
enum Section {
    /// Nothing, since no section has begun.
    Head,
    Levels,
    Edits,
    Machine,
    Codecs,
    Spelling,
    Files,
    NewFiles,
    Validate,
    BuiltPages,
}

impl Section {
    /// The section of that name.
    fn named(name: &str) -> Section {
        match name {
            "levels" => Section::Levels,
            "edits" => Section::Edits,
            "machine" => Section::Machine,
            "codecs" => Section::Codecs,
            "spelling" => Section::Spelling,
            "files" => Section::Files,
            "new files" => Section::NewFiles,
            "validate" => Section::Validate,
            "built pages" => Section::BuiltPages,
            _ => Section::Head,
        }
    }
}

/// The lines of the tables, each row with its answer. An empty line, a comment, which begins with
/// `#`, and a heading, which begins with `==`, have none.
/// The built pages are those of a file with the shape `wide`, and all others with the shape `shape`.
pub fn answered(
    alloc: Global,
    shape: &Shape,
    wide: &Shape,
    text: &str,
) -> Result<String, AllocError>
    requires shape { IsFileShape shape.now }
    requires size { shape.now.size ≡ 1024 }
    requires wide { IsFileShape wide.now }
    requires wide_size { wide.now.size ≡ 1024 }
{
    let mut out = String::new(alloc);
    let mut section = Section::Head;
    let mut page = Page::Blank;
    for line in text.lines() {
        out.push_str(line)?;
        if let Some(name) = line.strip_prefix("== ") {
            section = Section::named(name);
        } else if is_row(line) {
            let answer = match section {
                Section::BuiltPages => built::answer(alloc, wide, line),
                _ => answer(alloc, section, shape, &mut page, line),
            };
            push_answer(answer, &mut out)?;
        }
        out.push('\n')?;
    }
    Ok(out)
}

/// Answers one line of a section. `page` is what the edits before it have left.
fn answer(
    alloc: Global,
    section: Section,
    shape: &Shape,
    page: &mut Page,
    line: &str,
) -> Result<String, Fault>
    requires shape { IsFileShape shape.now }
    requires size { shape.now.size ≡ 1024 }
    requires limits { IsWithinLimits shape.now page.old }
    ensures { IsWithinLimits shape.now page.new }
{
    match section {
        Section::Head | Section::BuiltPages => Err(Fault::Unreadable),
        Section::Levels => levels::answer(alloc, line),
        Section::Edits => edits::answer(alloc, shape, page, line),
        Section::Machine => machines::answer(alloc, line),
        Section::Codecs => codecs::answer(alloc, line),
        Section::Spelling => spellings::answer(alloc, shape, line),
        Section::Files => files::recognised(alloc, line),
        Section::NewFiles => files::created(alloc, line),
        Section::Validate => checks::answer(alloc, line),
    }
}
