//! The commit of a transaction.

ghost use Rattle.std.specs.Prelude.{◌≡◌, IfOk, OnErr};
ghost use Rattle.fbc_desk.specs.Calls.{GoesOn};
ghost use Rattle.fbc_tra.specs.declared.committing.CommitStage.TheVariants as stages;
ghost use Rattle.fbc_tra.specs.Commits.{CommitComesTo, CommitStops, EndsWhole, GoesOrEnds, NamesTip, write_of};
ghost use Rattle.fbc_tra.specs.Numbers.{lowering};

use crate::numbers::transaction;
use crate::pages::{hold_tip, look_at_header};
use crate::steps::BodyStep;
use fbc_desk::{Desk, Held};
use fbc_kinds::State;
use fbc_levels::Level;
use fbc_tip::{MarkStep, try_mark};
use fbc_world::{Ask, Cause};
use std::alloc::AllocError;
use std::marker::Model;

/// How far a commit has come.
#[derive(Clone, Copy, Debug, PartialEq, Eq)]
pub enum CommitStage {
    /// The dirty pages are to be written.
    Drafts,
    /// The header is to be looked at, for the page of the number.
    Header,
    /// This page is to be held.
    Tip { page: u32 },
    /// The page is held, and the number is to be marked there.
    Mark { page: u32 },
    /// The number is marked, and the page is to be written.
    Marked { page: u32 },
    /// The page is written, and the lock of the number is given up.
    Lowered,
}

/// A transaction that commits. Contracts see its number, and how far it has come.
#[derive(Debug, Drop)]
pub struct Commit {
    number: u32,
    stage: CommitStage,
}

impl Model for Commit {
    ghost use Rattle.fbc_tra.specs.Stages.{CommitState};

    ghost Value = { CommitState };

    ghost view = { λ c. record { number = c.number; stage = c.stage } };
}

impl Commit {
    /// The open transaction, which has this number, is to commit.
    pub fn new(number: u32) -> Commit
        ensures { result ≡ record { number = number; stage = stages.Drafts } }
    {
        Commit {
            number,
            stage: CommitStage::Drafts,
        }
    }

    /// What comes next: a page that is missed, an ask, or the end. When the one is got, or the desk has taken the answer to
    /// the other, the call is made again.
    ///
    /// # Errors
    ///
    /// Want of memory, before the number is marked. The call may be made again.
    pub fn next(&mut self, desk: &mut Desk) -> Result<BodyStep, AllocError>
        ensures comes { IfOk result (CommitComesTo self.old.number desk.old self.old.stage desk.new self.new.stage) }
        ensures whole { IfOk result (EndsWhole desk.new) }
        ensures number { self.new.number ≡ self.old.number }
        ensures goes { GoesOrEnds self.old.stage desk.old desk.new }
        ensures err { OnErr result (CommitStops self.old.number desk.old self.old.stage desk.new self.new.stage) }
    {
        match self.stage {
            CommitStage::Drafts => from_drafts(&mut self.stage, self.number, desk),
            CommitStage::Header => from_header(&mut self.stage, self.number, desk),
            CommitStage::Tip { page } => from_tip(&mut self.stage, page, self.number, desk),
            CommitStage::Mark { page } => from_mark(&mut self.stage, page, self.number, desk),
            CommitStage::Marked { page } => {
                Ok(from_marked(&mut self.stage, page, self.number, desk))
            }
            CommitStage::Lowered => {
                desk.ended();
                Ok(BodyStep::Done)
            }
        }
    }
}

/// The commit at the dirty pages, which are written in their order.
fn from_drafts(
    stage: &mut CommitStage,
    number: u32,
    desk: &mut Desk,
) -> Result<BodyStep, AllocError>
    ensures comes { IfOk result (CommitComesTo number desk.old stages.Drafts desk.new stage.new) }
    ensures goes { GoesOn desk.old desk.new }
    ensures err { OnErr result (CommitStops number desk.old stages.Drafts desk.new stage.new) }
{
    *stage = CommitStage::Drafts;
    match desk.cache().dirty() {
        Some(page) => Ok(BodyStep::Must(write(page))),
        None => from_header(stage, number, desk),
    }
}

/// The page is written for the commit.
fn write(page: u32) -> Ask
    ensures { result ≡ write_of page }
{
    Ask::Write {
        page,
        cause: Cause::Commit,
    }
}

/// The commit at the header, which names the page of the number.
fn from_header(
    stage: &mut CommitStage,
    number: u32,
    desk: &mut Desk,
) -> Result<BodyStep, AllocError>
    ensures comes { IfOk result (CommitComesTo number desk.old stages.Header desk.new stage.new) }
    ensures goes { GoesOn desk.old desk.new }
    ensures err { OnErr result (CommitStops number desk.old stages.Header desk.new stage.new) }
{
    *stage = CommitStage::Header;
    match look_at_header(desk) {
        Held::Here => match named_tip(desk, number) {
            Some(page) => from_tip(stage, page, number, desk),
            None => Ok(BodyStep::Refused),
        },
        Held::Miss(need) => Ok(BodyStep::Miss(need)),
        Held::Damaged { page, rule } => Ok(BodyStep::Damaged { page, rule }),
    }
}

/// The page that the header names for the number, which is at hand; none where it names none.
fn named_tip(desk: &Desk, number: u32) -> Option<u32>
    ensures { NamesTip desk.now number result }
{
    let sequence = number / desk.tip_numbers();
    if sequence < desk.cache().tip_count() as u32 {
        Some(desk.cache().tip_page(sequence))
    } else {
        None
    }
}

/// The commit at the page of the number.
fn from_tip(
    stage: &mut CommitStage,
    page: u32,
    number: u32,
    desk: &mut Desk,
) -> Result<BodyStep, AllocError>
    ensures comes { IfOk result (CommitComesTo number desk.old (stages.Tip page) desk.new stage.new) }
    ensures goes { GoesOn desk.old desk.new }
    ensures err { OnErr result (CommitStops number desk.old (stages.Tip page) desk.new stage.new) }
{
    *stage = CommitStage::Tip { page };
    let sequence = number / desk.tip_numbers();
    match hold_tip(desk, page, sequence) {
        Held::Here => from_mark(stage, page, number, desk),
        Held::Miss(need) => Ok(BodyStep::Miss(need)),
        Held::Damaged { page, rule } => Ok(BodyStep::Damaged { page, rule }),
    }
}

/// The commit at the mark, before which the header is written.
fn from_mark(
    stage: &mut CommitStage,
    page: u32,
    number: u32,
    desk: &mut Desk,
) -> Result<BodyStep, AllocError>
    ensures comes { IfOk result (CommitComesTo number desk.old (stages.Mark page) desk.new stage.new) }
    ensures goes { GoesOn desk.old desk.new }
    ensures err { OnErr result (CommitStops number desk.old (stages.Mark page) desk.new stage.new) }
{
    *stage = CommitStage::Mark { page };
    match try_mark(desk, page, number, State::Committed, &[0])? {
        MarkStep::Done => Ok(from_marked(stage, page, number, desk)),
        MarkStep::Must(ask) => Ok(BodyStep::Must(ask)),
        MarkStep::Refused => Ok(BodyStep::Refused),
    }
}

/// The commit at the page with the mark: when it is written, no page is in use any more, and the lock of the number is
/// given up, once.
fn from_marked(stage: &mut CommitStage, page: u32, number: u32, desk: &mut Desk) -> BodyStep
    ensures comes { CommitComesTo number desk.old (stages.Marked page) desk.new stage.new result }
    ensures goes { GoesOn desk.old desk.new }
{
    if desk.cache().is_dirty(page) {
        *stage = CommitStage::Marked { page };
        return BodyStep::Must(write(page));
    }
    desk.unpin_all();
    *stage = CommitStage::Lowered;
    BodyStep::Must(lowering(number))
}

/// The lock of the number is given up.
fn lowering(number: u32) -> Ask
    ensures { result ≡ lowering number }
{
    Ask::Lower {
        resource: transaction(number),
        level: Level::Free,
    }
}
