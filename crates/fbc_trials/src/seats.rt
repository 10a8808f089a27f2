//! The eight names by which attachments come.

use fbc_attachment::Attachment;
use fbc_script::Statement;

/// What stands at a name.
#[derive(Drop)]
pub(crate) struct Seat {
    /// Its number, from 1 to 8.
    pub(crate) name: u8,
    pub(crate) attachment: Option<Attachment>,
    /// Whether its last attachment ended with a write that failed.
    pub(crate) is_shut: bool,
    /// The line that gave the statement that is not answered.
    pub(crate) line: u32,
    pub(crate) statement: Option<Statement>,
    /// The holder for which its last step but polls said that it waits.
    pub(crate) holder: Option<u32>,
}

impl Seat {
    /// Nobody is there.
    pub(crate) fn new(name: u8) -> Seat {
        Seat {
            name,
            attachment: None,
            is_shut: false,
            line: 0,
            statement: None,
            holder: None,
        }
    }

    /// Nobody is there any more.
    pub(crate) fn leave(&mut self) {
        self.attachment = None;
        self.statement = None;
        self.holder = None;
    }
}
