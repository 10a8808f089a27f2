//! The rules that a page may break.

use std::fmt;
use std::fmt::{Display, Formatter, Write};

/// A rule of damage. Of the rules that a page breaks the first is reported, by the order for its kind
/// in docs/FORMATS.md, which is not the order of these variants.
#[derive(Clone, Copy, Debug, PartialEq, Eq)]
pub enum Rule {
    /// The file is shorter than the part of the header that is read first.
    Short,
    /// The page is of another kind than is due there.
    Kind,
    /// A byte of the head, besides the kind and the page's own number, is wrong.
    Head,
    /// The page does not name its own number.
    Number,
    /// The header does not begin with the store's mark.
    Magic,
    /// The page size is none of the five, or not the one that is due.
    Size,
    /// The file version is unknown.
    Version,
    /// The file's length is no multiple of the page size.
    Length,
    /// The next transaction number is out of its range.
    Next,
    /// A count of the header is out of its range.
    Count,
    /// A relation's name is none, or stands twice.
    Name,
    /// A relation's value length is out of its range.
    Value,
    /// The page numbers of a relation's pointer pages are wrong.
    Pointers,
    /// The page numbers of the transaction inventory pages are wrong.
    Tips,
    /// The oldest transaction is out of its range.
    Oldest,
    /// A byte past what the page uses is not zero.
    Rest,
    /// A page inventory shows as free what it must show as taken.
    Bits,
    /// The state of transaction number 0 is not the one it must be.
    Zero,
    /// A transaction has a state that none may have.
    State,
    /// The relation is unknown, or another than the naming page says.
    Relation,
    /// A cell's flag is unknown.
    Flag,
    /// A cell's content is wrong.
    Cell,
    /// The sequence is another than the naming page says.
    Sequence,
    /// The page is in use and not taken.
    Taken,
    /// The page is reached twice.
    Twice,
    /// A back version is not where the version that names it says.
    Chain,
    /// A transaction number is not below the next one.
    Future,
    /// A version below the newest one is not committed.
    Below,
}

impl Display for Rule {
    ghost use Rattle.std.specs.Prelude.{Some};
    ghost use Rattle.fbc_kinds.specs.RuleText.{rule_text};

    ghost output = { λ rule. Some (rule_text rule) };

    fn fmt<W: Write>(&self, f: &mut Formatter<W>) -> fmt::Result {
        f.write_str(match *self {
            Rule::Short => "short",
            Rule::Kind => "kind",
            Rule::Head => "head",
            Rule::Number => "number",
            Rule::Magic => "magic",
            Rule::Size => "size",
            Rule::Version => "version",
            Rule::Length => "length",
            Rule::Next => "next",
            Rule::Count => "count",
            Rule::Name => "name",
            Rule::Value => "value",
            Rule::Pointers => "pointers",
            Rule::Tips => "tips",
            Rule::Oldest => "oldest",
            Rule::Rest => "rest",
            Rule::Bits => "bits",
            Rule::Zero => "zero",
            Rule::State => "state",
            Rule::Relation => "relation",
            Rule::Flag => "flag",
            Rule::Cell => "cell",
            Rule::Sequence => "sequence",
            Rule::Taken => "taken",
            Rule::Twice => "twice",
            Rule::Chain => "chain",
            Rule::Future => "future",
            Rule::Below => "below",
        })
    }
}
