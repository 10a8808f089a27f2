//! Where a read stands, and what it comes to.

ghost use Rattle.std.specs.Prelude.{◌≡◌};
ghost use Rattle.fbc_chains.specs.declared.parts.ReadPart.TheVariants as parts;

use fbc_cache::Need;
use fbc_kinds::{Rule, Value};

/// Where a read stands.
#[derive(Clone, Copy, Debug, PartialEq, Eq)]
pub enum ReadPart {
    /// At the slot of a pointer page that names the data page of the row.
    Slot,
    /// At the data page that the slot named.
    Page { page: u32 },
    /// At the slot once more: the page that it named breaks the rule.
    Named { page: u32, rule: Rule },
    /// At the version in the cell of the page, which is in use: the version is not seen, and leads on to the one before it.
    Walk { page: u32, cell: u16 },
}

impl ReadPart {
    /// A read begins at the slot.
    pub fn new() -> Self
        ensures { result ≡ parts.Slot }
    {
        ReadPart::Slot
    }
}

/// What a read comes to.
#[derive(Clone, Copy, Debug, PartialEq, Eq)]
pub enum ReadStep {
    /// This value is seen of the row, or nothing.
    Done(Option<Value>),
    /// This page is to be got first.
    Miss(Need),
    /// The page breaks the rule.
    Damaged { page: u32, rule: Rule },
}
