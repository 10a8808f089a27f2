//! Why bytes are no script.

ghost use Rattle.std.specs.Prelude.{◌≡◌};
ghost use Rattle.fbc_script.specs.declared.faults.ParseFault.TheVariants.{Memory};

use std::alloc::AllocError;
use std::fmt;
use std::fmt::{Display, Formatter, Write};

/// Why a line is faulty. The causes are tested in this order; those from `Name` on, and `Word` again,
/// on one argument after the other.
#[derive(Clone, Copy, Debug, PartialEq, Eq)]
pub enum Why {
    /// A byte outside 32 to 126, or spaces that are not single or stand at an end.
    Space,
    /// An `a` with digits that names no attachment.
    Attachment,
    /// An unknown word.
    Word,
    /// Too few or too many words.
    Count,
    /// No name of a relation.
    Name,
    /// No number, or one out of range.
    Number,
    /// A text of more than 255 bytes.
    Text,
}

impl Display for Why {
    ghost use Rattle.std.specs.Prelude.{Some};
    ghost use Rattle.fbc_script.specs.WhyText.{why_text};

    ghost output = { λ why. Some (why_text why) };

    fn fmt<W: Write>(&self, f: &mut Formatter<W>) -> fmt::Result {
        f.write_str(match *self {
            Why::Space => "space",
            Why::Attachment => "attachment",
            Why::Word => "word",
            Why::Count => "count",
            Why::Name => "name",
            Why::Number => "number",
            Why::Text => "text",
        })
    }
}

/// The first faulty line of a script, from 1 on, and its cause.
#[derive(Clone, Copy, Debug, PartialEq, Eq)]
pub struct ScriptFault {
    pub line: u32,
    pub why: Why,
}

impl Display for ScriptFault {
    ghost use Rattle.std.specs.Prelude.{Some};
    ghost use Rattle.fbc_script.specs.WhyText.{fault_text};

    ghost output = { λ fault. Some (fault_text fault) };

    fn fmt<W: Write>(&self, f: &mut Formatter<W>) -> fmt::Result {
        let ScriptFault { line, why } = *self;
        write!(f, "{line} {why}")
    }
}

/// Why a script could not be read.
#[derive(Clone, Copy, Debug, PartialEq, Eq)]
pub enum ParseFault {
    /// The bytes are no script.
    Script(ScriptFault),
    /// No memory is left.
    Memory,
}

impl From<AllocError> for ParseFault {
    ghost from_gives = { λ _ fault. fault ≡ Memory };

    fn from(_refused: AllocError) -> Self {
        ParseFault::Memory
    }
}
