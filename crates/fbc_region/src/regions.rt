//! The region: what all attachments share, and the calls that read it.

ghost use Rattle.std.specs.Prelude.{◌≡◌, ◌↔◌, ◌≤◌, ◌++◌, ◌∷◌, [], ℕ, suc, Bool, List, Option, IsTrue, IsSome, true, false, length, IfOk, IfErr, OnOk};
ghost use Rattle.fbc_blocking.specs.Callbacks.{blocked_by};
ghost use Rattle.fbc_kinds.specs.View.{View};
ghost use Rattle.fbc_legal.specs.Lives.{entered};
ghost use Rattle.fbc_outside.specs.Faults.{count_after};
ghost use Rattle.fbc_outside.specs.Frames.{IsFaithful};
ghost use Rattle.fbc_region.specs.Adding.{Adds, UsesRoom, by};
ghost use Rattle.fbc_region.specs.Lawful.{IsLawfulOver, MeetsStep, new_landings};
ghost use Rattle.fbc_region.specs.Shared.{HasReserved, HasRoom, locks_in};
ghost use Rattle.fbc_region.specs.Stepping.{BlamesDevice, MayPerform, PagesComeTo, Performs, StepComesTo, is_read, is_write};
ghost use Rattle.fbc_world.specs.declared.events.Act.TheVariants as act;
ghost use Rattle.fbc_world.specs.History.{recorded};
ghost use Rattle.fbc_world.specs.Owners.{is_alive};

use crate::chronicles::Chronicle;
use crate::ledgers::Ledger;
use crate::pages::{read_page, write_page};
use fbc_outside::Device;
use fbc_world::{Act, Answer, Ask, Journal, LocalEvent, Recorded};
use std::alloc::{AllocError, Global};
use std::marker::Model;

/// What all attachments share, seen by contracts as a `Shared`.
#[derive(Drop)]
pub struct Region<D> {
    pub(crate) device: D,
    pub(crate) size: u32,
    pub(crate) ledger: Ledger,
}

impl<D> Model for Region<D> {
    ghost use Rattle.fbc_region.specs.Shared.{Shared};

    ghost Value = { Shared D };

    ghost view = { λ r. record { device = r.device; size = r.size; journal = r.ledger } };
}

/// No region for want of memory, and what was given for it.
#[derive(Debug, Drop)]
pub struct NoRegion<D> {
    pub device: D,
    pub journal: Chronicle,
}

impl<D: Device> Recorded for Region<D> {
    ghost use Rattle.fbc_region.specs.Shared.{history_of, landings_told};

    ghost history = { λ r. history_of r.journal (landings_told (D.bytes r.device) (D.landings r.device)) };
}

impl<D> Region<D> {
    /// A region over the device of a file with pages of `size` bytes, with room for that many lock requests. It records
    /// in the journal, of which no owner is alive, that the file is opened.
    ///
    /// # Errors
    ///
    /// Want of memory alone: the device and the journal are then handed back as they were.
    pub fn new(
        alloc: Global,
        device: D,
        size: u32,
        locks: u32,
        journal: Chronicle,
    ) -> Result<Region<D>, NoRegion<D>>
        requires { (owner : ℕ) → is_alive (recorded journal) owner ≡ false }
        ensures device { IfOk result (λ region. region.device ≡ device) }
        ensures size { IfOk result (λ region. region.size ≡ size) }
        ensures opened { IfOk result (λ region. Adds journal region.journal (by 0 (act.Opened locks) ∷ [])) }
        ensures legal { (bytes : Option (List ℕ)) (file : View) (landings : List Bool) → IsLawfulOver size bytes journal file landings
            → IfOk result (λ region. IsLawfulOver region.size bytes region.journal file landings) }
        ensures device_back { IfErr result (λ none. none.device ≡ device) }
        ensures journal_back { IfErr result (λ none. Adds journal none.journal []) }
        ensures spare_back { IfErr result (λ none. journal.spare ≤ none.journal.spare) }
    {
        journal.is_at_rest();
        match Ledger::open(alloc, locks, journal) {
            Ok(ledger) => Ok(Region {
                device,
                size,
                ledger,
            }),
            Err(journal) => Err(NoRegion { device, journal }),
        }
    }

    /// Reserves that many steps.
    pub fn reserve(&mut self, steps: u32) -> Result<(), AllocError>
        ensures ok { OnOk result (HasReserved self.new.journal steps) }
        ensures reserved { (n : ℕ) → HasReserved self.old.journal n → HasReserved self.new.journal n }
        ensures device { self.new.device ≡ self.old.device }
        ensures size { self.new.size ≡ self.old.size }
        ensures journal { Adds self.old.journal self.new.journal [] }
    {
        self.ledger.reserve(steps)
    }

    /// How many owners have come in the journal.
    pub fn owners(&self) -> u32
        ensures { result ≡ entered (recorded self.now.journal) }
    {
        self.ledger.chronicle.owners()
    }

    /// Whether the owner is alive.
    pub fn alive(&self, who: u32) -> bool
        ensures { result ≡ is_alive (recorded self.now.journal) who }
    {
        self.ledger.chronicle.is_alive(who)
    }

    /// Whether somebody waits for a page that the owner keeps from it.
    pub fn called(&self, who: u32) -> bool
        ensures { IsTrue result ↔ ((page : ℕ) × IsSome (blocked_by (locks_in self.now.journal) who page)) }
    {
        self.ledger.is_called(who)
    }

    /// The journal, to be read.
    pub fn journal(&self) -> &Journal
        ensures { result.now ≡ self.now.journal }
    {
        self.ledger.chronicle.journal()
    }

    /// The device and the journal, without the region.
    pub fn into_parts(self) -> (D, Chronicle)
        ensures device { result.0 ≡ self.device }
        ensures journal { result.1 ≡ self.journal }
    {
        (self.device, self.ledger.chronicle)
    }

    /// How many lock requests there are.
    pub fn used_locks(&self) -> u32
        ensures { result ≡ length (locks_in self.now.journal).requests }
    {
        self.ledger.table.used()
    }
}

impl<D> Region<D> {
    /// An owner dies between two steps. There is a place for it.
    pub fn die(&mut self, who: u32)
        requires { is_alive (recorded self.old.journal) who ≡ true }
        ensures died { Adds self.old.journal self.new.journal (by who act.Die ∷ []) }
        ensures legal { (bytes : Option (List ℕ)) (file : View) (landings : List Bool) → IsLawfulOver self.old.size bytes self.old.journal file landings
            → IsLawfulOver self.new.size bytes self.new.journal file landings }
        ensures reserved { (n : ℕ) → HasReserved self.old.journal n → HasReserved self.new.journal n }
        ensures device { self.new.device ≡ self.old.device }
        ensures size { self.new.size ≡ self.old.size }
    {
        self.ledger.is_at_rest();
        self.ledger.die(who);
    }
}

impl<D: Device> Region<D> {
    /// One atomic step: what the owner did in its own cache since the step before is recorded, and its ask is carried out,
    /// answered and recorded, with the grants that it causes.
    pub fn perform(&mut self, who: u32, ask: Ask, local: &[LocalEvent], image: &mut [u8]) -> Answer
        requires ask { MayPerform (D.reach self.old.device) self.old.size self.old.journal who ask }
        requires reserved { HasReserved self.old.journal 1 }
        requires local { length local.now ≤ 64 }
        requires image { length image.old ≡ self.old.size }
        ensures step { Performs self.old.journal self.new.journal who local.now result ask }
        ensures reserved { (n : ℕ) → HasReserved self.old.journal (suc n) → HasReserved self.new.journal n }
        ensures pages { PagesComeTo self.old.size (D.bytes self.old.device) (D.bytes self.new.device)
            (D.landings self.old.device) (D.landings self.new.device) image.old image.new result ask }
        ensures legal { (file : View) (landings : List Bool) → IsLawfulOver self.old.size (D.bytes self.old.device) self.old.journal file landings
            → MeetsStep self.old.journal file landings who local.now image.old ask
            → IsLawfulOver self.new.size (D.bytes self.new.device) self.new.journal file
            (landings ++ new_landings (D.landings self.old.device) (D.landings self.new.device)) }
        ensures size { self.new.size ≡ self.old.size }
        ensures image { length image.new ≡ length image.old }
        ensures reads { D.reads self.new.device ≡ count_after (is_read ask) (D.reads self.old.device) }
        ensures writes { D.writes self.new.device ≡ count_after (is_write ask) (D.writes self.old.device) }
        ensures device { IsFaithful D.reach D.faults (BlamesDevice result) self.old.device self.new.device }
    {
        self.ledger.is_at_rest();
        self.ledger.record_all(who, local);
        self.step(who, ask, image)
    }

    /// The owner's ask is carried out.
    fn step(&mut self, who: u32, ask: Ask, image: &mut [u8]) -> Answer
        requires ask { MayPerform (D.reach self.old.device) self.old.size self.old.journal who ask }
        requires room { HasRoom self.old.journal 9 }
        requires image { length image.old ≡ self.old.size }
        ensures step { StepComesTo self.old.journal self.new.journal who result ask }
        ensures room { UsesRoom self.old.journal self.new.journal 9 }
        ensures pages { PagesComeTo self.old.size (D.bytes self.old.device) (D.bytes self.new.device)
            (D.landings self.old.device) (D.landings self.new.device) image.old image.new result ask }
        ensures size { self.new.size ≡ self.old.size }
        ensures image { length image.new ≡ length image.old }
        ensures reads { D.reads self.new.device ≡ count_after (is_read ask) (D.reads self.old.device) }
        ensures writes { D.writes self.new.device ≡ count_after (is_write ask) (D.writes self.old.device) }
        ensures device { IsFaithful D.reach D.faults (BlamesDevice result) self.old.device self.new.device }
    {
        match ask {
            Ask::Enter { buffers, name } => {
                self.ledger.enter(who, buffers, name);
                Answer::Noted
            }
            Ask::Leave => {
                self.ledger.leave(who);
                Answer::Noted
            }
            Ask::Lock {
                resource,
                level,
                wait,
                word,
            } => self.ledger.ask(who, resource, level, wait, word),
            Ask::Look => self.ledger.look(who),
            Ask::Withdraw => self.ledger.withdraw(who),
            Ask::Lower { resource, level } => {
                self.ledger.lower(who, resource, level);
                Answer::Noted
            }
            Ask::Read { page } => {
                read_page(
                    &mut self.device,
                    &mut self.ledger,
                    self.size,
                    who,
                    page,
                    image,
                )
            }
            Ask::Write { page, cause } => write_page(
                &mut self.device,
                &mut self.ledger,
                self.size,
                who,
                page,
                cause,
                image,
            ),
            Ask::Poll { above } => self.ledger.poll(who, above),
            Ask::Least => self.ledger.least(who),
            Ask::Note { reply } => {
                self.ledger.record(who, Act::Note { reply });
                Answer::Noted
            }
        }
    }
}
