//! The begin of a transaction.

ghost use Rattle.std.specs.Prelude.{◌≡◌, Bool, IfOk, None, OnErr};
ghost use Rattle.fbc_desk.specs.Calls.{GoesOn};
ghost use Rattle.fbc_tra.specs.declared.beginning.BeginStage.TheVariants as stages;
ghost use Rattle.fbc_tra.specs.Begins.{BeginAnswers, BeginComesTo, BeginStops, BeginWants, BeginsWhole};
ghost use Rattle.fbc_tra.specs.Goes.{GoesOrBegins};
ghost use Rattle.fbc_tra.specs.Numbers.{bar};
ghost use Rattle.fbc_tra.specs.Taken.{stage_taken};

use crate::answers::take_if_asked;
use crate::numbers::{bar, lock_of, raise};
use crate::pages::hold_header;
use crate::steps::BodyStep;
use fbc_desk::{Desk, Held};
use fbc_kinds::Snapshot;
use fbc_reserve::{WaitStep, Waiting};
use fbc_tip::{InventoryPart, TipStep, try_inventory};
use fbc_world::Answer;
use std::alloc::{AllocError, Global};
use std::marker::Model;
use std::mem;

/// How far a begin has come.
#[derive(Debug, Drop)]
pub enum BeginStage {
    /// The header is to be held.
    Header,
    /// The header is held, and the transaction inventory pages are to be.
    Tips {
        part: InventoryPart,
    },
    /// The snapshot is taken, and the lock of its own number is on its way.
    Number {
        snapshot: Snapshot,
        waiting: Waiting,
    },
    /// The transaction has begun, and the header is to give out the next number.
    Begun,
}

/// A transaction that begins. Contracts see whether the lock of its number is waited for, and how far it has come.
#[derive(Debug, Drop)]
pub struct Begin {
    wait: bool,
    stage: BeginStage,
}

impl Model for Begin {
    ghost use Rattle.fbc_tra.specs.Stages.{BeginState};

    ghost Value = { BeginState };

    ghost view = { λ b. record { wait = b.wait; stage = b.stage } };
}

impl Begin {
    /// A transaction is to begin. Whether it waits for others is said here.
    pub fn new(wait: bool) -> Begin
        ensures { result ≡ record { wait = wait; stage = stages.Header } }
    {
        Begin {
            wait,
            stage: BeginStage::Header,
        }
    }

    /// What comes next: a page that is missed, an ask, or the end. After the answer to either the call is made again.
    ///
    /// # Errors
    ///
    /// Want of memory, before the snapshot is taken or the header edited. The call may be made again.
    pub fn next(&mut self, alloc: Global, desk: &mut Desk) -> Result<BodyStep, AllocError>
        ensures comes { IfOk result (BeginComesTo self.old.wait desk.old self.old.stage desk.new self.new.stage) }
        ensures whole { IfOk result (BeginsWhole self.old.stage desk.new) }
        ensures wait { self.new.wait ≡ self.old.wait }
        ensures goes { GoesOrBegins desk.old desk.new }
        ensures err { OnErr result (BeginStops self.old.wait desk.old self.old.stage desk.new self.new.stage) }
    {
        match mem::replace(&mut self.stage, BeginStage::Begun) {
            BeginStage::Header => from_header(&mut self.stage, self.wait, alloc, desk),
            BeginStage::Tips { part } => from_tips(&mut self.stage, part, self.wait, alloc, desk),
            BeginStage::Number { snapshot, waiting } => {
                from_number(&mut self.stage, snapshot, waiting, desk)
            }
            BeginStage::Begun => from_begun(&mut self.stage, desk),
        }
    }

    /// Takes the answer to the ask of a lock or of a look, which `next` gave. Any other answer changes nothing.
    pub fn take(&mut self, answer: &Answer)
        ensures { self.new ≡ record self.old { stage = stage_taken answer.now self.old.stage } }
    {
        if let BeginStage::Number {
            snapshot: _,
            waiting,
        } = &mut self.stage
        {
            take_if_asked(waiting, answer);
        }
    }
}

/// The begin at the header, which is held from here on.
fn from_header(
    stage: &mut BeginStage,
    wait: bool,
    alloc: Global,
    desk: &mut Desk,
) -> Result<BodyStep, AllocError>
    ensures comes { IfOk result (BeginComesTo wait desk.old stages.Header desk.new stage.new) }
    ensures goes { GoesOrBegins desk.old desk.new }
    ensures err { OnErr result (BeginStops wait desk.old stages.Header desk.new stage.new) }
{
    *stage = BeginStage::Header;
    match hold_header(desk) {
        Held::Here => from_tips(stage, InventoryPart::new(), wait, alloc, desk),
        Held::Miss(need) => Ok(BodyStep::Miss(need)),
        Held::Damaged { page, rule } => Ok(BodyStep::Damaged { page, rule }),
    }
}

/// The begin at the transaction inventory pages, where the header has one number more.
fn from_tips(
    stage: &mut BeginStage,
    part: InventoryPart,
    wait: bool,
    alloc: Global,
    desk: &mut Desk,
) -> Result<BodyStep, AllocError>
    ensures comes { IfOk result (BeginComesTo wait desk.old (stages.Tips part) desk.new stage.new) }
    ensures goes { GoesOrBegins desk.old desk.new }
    ensures err { OnErr result (BeginStops wait desk.old (stages.Tips part) desk.new stage.new) }
{
    match bar(desk) {
        Some(step) => {
            *stage = BeginStage::Tips { part };
            Ok(step)
        }
        None => hold_tips(stage, part, wait, alloc, desk),
    }
}

/// The begin at the transaction inventory pages, which are held from here on: the snapshot is taken.
fn hold_tips(
    stage: &mut BeginStage,
    part: InventoryPart,
    wait: bool,
    alloc: Global,
    desk: &mut Desk,
) -> Result<BodyStep, AllocError>
    requires { bar desk.old ≡ None }
    ensures comes { IfOk result (BeginComesTo wait desk.old (stages.Tips part) desk.new stage.new) }
    ensures goes { GoesOrBegins desk.old desk.new }
    ensures err { OnErr result (BeginStops wait desk.old (stages.Tips part) desk.new stage.new) }
{
    let mut part = part;
    let step = try_inventory(alloc, &mut part, desk);
    *stage = BeginStage::Tips { part };
    match step? {
        TipStep::Done(snapshot) => {
            let waiting = lock_of(&snapshot, wait);
            from_number(stage, snapshot, waiting, desk)
        }
        TipStep::Miss(need) => Ok(BodyStep::Miss(need)),
        TipStep::Damaged { page, rule } => Ok(BodyStep::Damaged { page, rule }),
    }
}

/// The begin at the lock of the own number.
fn from_number(
    stage: &mut BeginStage,
    snapshot: Snapshot,
    waiting: Waiting,
    desk: &mut Desk,
) -> Result<BodyStep, AllocError>
    ensures comes { (wait : Bool) → IfOk result (BeginComesTo wait desk.old (stages.Number snapshot waiting) desk.new stage.new) }
    ensures goes { GoesOrBegins desk.old desk.new }
    ensures err { (wait : Bool) → OnErr result (BeginStops wait desk.old (stages.Number snapshot waiting) desk.new stage.new) }
{
    match waiting.next() {
        WaitStep::Must(ask) => {
            *stage = BeginStage::Number { snapshot, waiting };
            Ok(BodyStep::Must(ask))
        }
        WaitStep::Got => {
            desk.begun(snapshot);
            from_begun(stage, desk)
        }
        WaitStep::Over(reply) => {
            *stage = BeginStage::Number { snapshot, waiting };
            Ok(BodyStep::Over(reply))
        }
    }
}

/// The begin at the header's next number.
fn from_begun(stage: &mut BeginStage, desk: &mut Desk) -> Result<BodyStep, AllocError>
    ensures comes { IfOk result (BeginAnswers desk.old stages.Begun desk.new stage.new) }
    ensures goes { GoesOn desk.old desk.new }
    ensures err { OnErr result (BeginWants desk.old stages.Begun desk.new stage.new) }
{
    *stage = BeginStage::Begun;
    if raise(desk)? {
        desk.unpin_all();
        Ok(BodyStep::Done)
    } else {
        Ok(BodyStep::Refused)
    }
}
