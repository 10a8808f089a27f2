//! The words of a reply.

use fbc_kinds::{Circle, Reply, Rows};
use fbc_levels::of_number;
use std::alloc::{AllocError, Global};

/// The text of a line, with the names of owners.
#[derive(Drop)]
pub(crate) struct Words<'a> {
    pub(crate) alloc: Global,
    pub(crate) names: &'a [u8],
    pub(crate) text: Vec<u8>,
}

impl<'a> Words<'a> {
    pub(crate) fn new(alloc: Global, names: &'a [u8]) -> Words<'a> {
        Words {
            alloc,
            names,
            text: Vec::new(alloc),
        }
    }

    /// Adds a text.
    pub(crate) fn word(&mut self, word: &str) -> Result<(), AllocError> {
        self.text.extend_from_slice(word.as_bytes())
    }

    /// Adds a number.
    pub(crate) fn number(&mut self, number: u32) -> Result<(), AllocError> {
        let digits = format!(in self.alloc; "{number}")?;
        self.text.extend_from_slice(digits.as_bytes())
    }

    /// Adds a word and a number.
    pub(crate) fn counted(&mut self, word: &str, number: u32) -> Result<(), AllocError> {
        self.word(word)?;
        self.number(number)
    }

    /// Adds the name of an owner behind a word.
    pub(crate) fn named(&mut self, word: &str, owner: u32) -> Result<(), AllocError> {
        self.word(word)?;
        self.word("a")?;
        self.number(self.name_of(owner) as u32)
    }

    /// The name of an owner, 0 where there is none.
    fn name_of(&self, owner: u32) -> u8 {
        match owner.checked_sub(1) {
            Some(at) => match self.names.get(at as usize) {
                Some(name) => *name,
                None => 0,
            },
            None => 0,
        }
    }

    /// Adds the words of a reply.
    pub(crate) fn reply(&mut self, reply: &Reply) -> Result<(), AllocError> {
        match reply {
            Reply::Value { value } => {
                self.word("value ")?;
                self.text.extend_from_slice(value.as_bytes())
            }
            Reply::Rows { rows } => self.rows(rows),
            Reply::Busy { holder, level } => self.busy(*holder, *level),
            Reply::Deadlock { cycle } => self.circle(cycle),
            Reply::Damaged { page, rule } => {
                let text = format!(in self.alloc; "damaged {page} {rule}")?;
                self.word(text.as_str())
            }
            Reply::Waits { holder } => self.named("waits ", *holder),
            _ => self.short_reply(reply),
        }
    }

    /// Adds the words of a reply that has at most a number.
    fn short_reply(&mut self, reply: &Reply) -> Result<(), AllocError> {
        match reply {
            Reply::Conflict { n } => self.counted("conflict ", *n),
            Reply::Room { used } => self.counted("room ", *used),
            Reply::TransactionLimit { next } => self.counted("transactions ", *next),
            Reply::SpaceLimit { pages } => self.counted("space ", *pages),
            Reply::TooLong { length } => self.counted("toolong ", *length),
            Reply::Row { row } => self.counted("row ", *row),
            Reply::Number { number } => self.counted("transaction ", *number),
            _ => self.word(bare_word(reply)),
        }
    }

    fn rows(&mut self, rows: &Rows) -> Result<(), AllocError> {
        let count = rows.items().len();
        let text = format!(in self.alloc; "rows {count}")?;
        self.word(text.as_str())?;
        for (row, value) in rows.items() {
            self.counted(" ", *row)?;
            self.word("=")?;
            self.text.extend_from_slice(value.as_bytes())?;
        }
        Ok(())
    }

    fn busy(&mut self, holder: u32, level: u8) -> Result<(), AllocError> {
        self.named("busy ", holder)?;
        if let Some(level) = of_number(level) {
            let text = format!(in self.alloc; " {level}")?;
            self.word(text.as_str())?;
        }
        Ok(())
    }

    fn circle(&mut self, circle: &Circle) -> Result<(), AllocError> {
        self.word("deadlock")?;
        for owner in circle.owners() {
            self.named(" ", *owner)?;
        }
        Ok(())
    }
}

/// The word of a reply that has no number.
fn bare_word(reply: &Reply) -> &'static str {
    match reply {
        Reply::Ok => "ok",
        Reply::None => "none",
        Reply::NoRow => "norow",
        Reply::NoTransaction => "notransaction",
        Reply::AlreadyOpen => "alreadyopen",
        Reply::ReadFault => "readfault",
        Reply::Shut => "shut",
        Reply::OutOfMemory => "outofmemory",
        Reply::NotAttached => "notattached",
        Reply::Attached => "attached",
        Reply::InProgress => "inprogress",
        Reply::NoRelation => "norelation",
        _ => "",
    }
}
