//! One attachment: what it is given, the step that it takes next, and what it is answered.

ghost use Rattle.std.specs.Prelude.{◌≡◌, ◌≤◌, IfOk, Some, OnErr, OnOk, false, is_some, length, true};
ghost use Rattle.fbc_kinds.specs.HeaderSpelling.{IsFileShape};
ghost use Rattle.fbc_attachment.specs.Attachment.{IsAtRest, fresh, is_tip, step_bears};

use crate::bodies::Body;
use crate::due::Due;
use crate::errands::Errands;
use crate::polls::Polls;
use crate::step_names::bears;
use fbc_desk::Desk;
use fbc_kinds::{Listed, Reply, Shape, Snapshot};
use fbc_levels::Level;
use fbc_outside::StepName;
use fbc_script::{Statement, Trap};
use fbc_world::{Ask, LocalEvent};
use std::alloc::{AllocError, Global};
use std::marker::Model;

/// A statement is not answered yet.
#[derive(Clone, Copy, Debug, PartialEq, Eq)]
pub struct Busy;

/// What an attachment does next.
#[derive(Debug, Drop)]
pub enum Move {
    /// It asks for this step.
    Ask(Ask),
    /// It does nothing.
    Idle,
    /// It answers its statement: the step is a note of this reply.
    Answered(Reply),
    /// It dies before the step that is due.
    Die,
}

/// One attachment: its statements, one at a time, each done step by step over its own cache.
#[derive(Drop)]
pub struct Attachment {
    pub(crate) alloc: Global,
    pub(crate) who: u32,
    pub(crate) name: u8,
    pub(crate) buffers: u32,
    /// How many pages the file has at most.
    pub(crate) limit: u32,
    pub(crate) desk: Desk,
    /// The level in which each relation is held.
    pub(crate) locks: [Level; 8],
    /// The sequence at which the search for a place in each relation begins.
    pub(crate) places: [u32; 8],
    /// Whether the open transaction waits for locks.
    pub(crate) is_waiting: bool,
    /// What the open transaction sees.
    pub(crate) snapshot: Snapshot,
    pub(crate) statement: Option<Statement>,
    pub(crate) body: Body,
    pub(crate) errands: Errands,
    /// Whether a page that could not be read is being given up.
    pub(crate) is_faulted: bool,
    /// Whether its statement needs what is not built yet.
    pub(crate) is_unbuilt: bool,
    pub(crate) polls: Polls,
    pub(crate) is_called: bool,
    pub(crate) due: Option<Due>,
    pub(crate) reply: Option<Reply>,
    pub(crate) trap: Option<Trap>,
}

impl Model for Attachment {
    ghost use Rattle.fbc_attachment.specs.Attachment.{AttachmentState, IsBelow};

    ghost Value = { AttachmentState };

    ghost view = { λ a. record {
      who = a.who;
      name = a.name;
      buffers = a.buffers;
      limit = a.limit;
      desk = a.desk;
      statement = a.statement;
      polls = a.polls;
      is_called = a.is_called;
      due = a.due;
      reply = a.reply;
      trap = a.trap;
      is_unbuilt = a.is_unbuilt;
    } };

    ghost invariant = { λ a. IsBelow a.limit a.due };
}

impl Attachment {
    /// The attachment of that owner number, by one of the names 1 to 8, with so many buffers for the pages of a file of that
    /// shape. It takes its memory at the beginning.
    ///
    /// # Errors
    ///
    /// Want of memory, and more than 512 buffers.
    pub fn new(
        alloc: Global,
        who: u32,
        name: u8,
        buffers: u32,
        shape: Shape,
    ) -> Result<Attachment, AllocError>
        requires shape { IsFileShape shape }
        ensures fresh { IfOk result (λ a. a ≡ fresh who name buffers shape) }
        ensures rest { IfOk result (λ a. IsAtRest a) }
    {
        Ok(Attachment {
            alloc,
            who,
            name,
            buffers,
            limit: shape.limit,
            desk: Desk::new(alloc, buffers, shape)?,
            locks: [Level::Free; 8],
            places: [0; 8],
            is_waiting: true,
            snapshot: Snapshot {
                own: 0,
                states: Listed::new(Vec::new(alloc)),
            },
            statement: None,
            body: Body::Words,
            errands: Errands::new(alloc)?,
            is_faulted: false,
            is_unbuilt: false,
            polls: Polls::Off,
            is_called: false,
            due: None,
            reply: None,
            trap: None,
        })
    }

    /// Gives it a statement.
    ///
    /// # Errors
    ///
    /// `Busy` exactly where one is unanswered: nothing is given then.
    pub fn give(&mut self, statement: Statement) -> Result<(), Busy>
        ensures busy { OnErr result (is_some self.old.statement ≡ true) }
        ensures given { OnOk result (is_some self.old.statement ≡ false) }
        ensures same { OnErr result (self.new ≡ self.old) }
        ensures desk { self.new.desk ≡ self.old.desk }
        ensures after { OnOk result (self.new ≡ record self.old { statement = Some statement }) }
    {
        if self.statement.is_some() {
            return Err(Busy);
        }
        self.statement = Some(statement);
        Ok(())
    }

    /// Whether a statement is unanswered.
    pub fn is_busy(&self) -> bool
        ensures { result ≡ is_some self.now.statement }
    {
        self.statement.is_some()
    }

    /// Whether its statement needs what is not built yet: a further page inventory, transaction inventory or pointer page. Then
    /// `take` has failed, and it goes on no more.
    pub fn is_unbuilt(&self) -> bool
        ensures { result ≡ self.now.is_unbuilt }
    {
        self.is_unbuilt
    }

    /// Its owner number.
    pub fn who(&self) -> u32
        ensures { result ≡ self.now.who }
    {
        self.who
    }

    /// What it did since its last step.
    pub fn local(&self) -> &[LocalEvent]
        ensures events { result.now ≡ self.now.desk.unsent }
        ensures few { length result.now ≤ 64 }
    {
        self.desk.unsent()
    }

    /// It is to die before a step: the `count`-th next one that bears the trap's name.
    pub fn arm(&mut self, trap: Trap)
        ensures { self.new ≡ record self.old { trap = Some trap } }
    {
        self.trap = Some(trap);
    }

    /// Somebody may wait for one of its pages: it asks for that when it is idle.
    pub fn called(&mut self)
        ensures { self.new ≡ record self.old { is_called = true } }
    {
        self.is_called = true;
    }

    /// Whether the step that is due bears the name; none does where no step is due.
    pub fn bears(&self, name: StepName) -> bool
        ensures { result ≡ step_bears self.now name }
    {
        match &self.due {
            Some(due) => bears(&due.ask(), self.is_tip(due), name),
            None => false,
        }
    }

    /// Whether the step writes a transaction inventory page.
    fn is_tip(&self, due: &Due) -> bool
        ensures { result ≡ is_tip self.now.desk due.now }
    {
        match *due {
            Due::Write { page, cause: _ } => self.desk.cache().place(page).kind == 3,
            _ => false,
        }
    }
}
