//! The ledger: the journal and its census, with the lock table that goes with it.

ghost use Rattle.std.specs.Prelude.{◌≡◌, ◌↔◌, ◌<◌, ◌≤◌, ◌*◌, ◌+◌, ◌∷◌, [], ℕ, suc, true, false, None, length, IsTrue, IsSome, IfOk, IfErr, OnOk};
ghost use Rattle.fbc_blocking.specs.Callbacks.{blocked_by};
ghost use Rattle.fbc_legal.specs.Lives.{entered, living};
ghost use Rattle.fbc_owner_queues.specs.Grants.{first_of};
ghost use Rattle.fbc_region.specs.Adding.{Adds, UsesRoom, by, is_quiet, local_events};
ghost use Rattle.fbc_region.specs.Census.{most_owners};
ghost use Rattle.fbc_region.specs.Kept.{IsAtRest};
ghost use Rattle.fbc_region.specs.Shared.{HasReserved, HasRoom, locks_in};
ghost use Rattle.fbc_levels.specs.declared.resources.Series.TheVariants as series;
ghost use Rattle.fbc_lock_table.specs.Answers.{least_data_of};
ghost use Rattle.fbc_region.specs.Stepping.{AnswersPoll};
ghost use Rattle.fbc_world.specs.declared.answers.Answer.TheVariants as answers;
ghost use Rattle.fbc_world.specs.declared.events.Act.TheVariants as act;
ghost use Rattle.fbc_world.specs.History.{recorded};
ghost use Rattle.fbc_world.specs.Owners.{is_alive};

use crate::census::LIVING;
use crate::chronicles::Chronicle;
use fbc_blocking::next_callback;
use fbc_levels::Series;
use fbc_lock_table::LockTable;
use fbc_world::{Act, Answer, Cause, Event, LocalEvent};
use std::alloc::{AllocError, Global};
use std::marker::Model;

/// One step adds so many events at most.
const EVENTS_OF_STEP: u32 = 73;

/// The journal, seen by contracts as what it records, with the requests that it leads to.
#[derive(Drop)]
pub(crate) struct Ledger {
    pub(crate) table: LockTable,
    pub(crate) chronicle: Chronicle,
}

impl Model for Ledger {
    ghost use Rattle.fbc_region.specs.Kept.{IsKept};
    ghost use Rattle.fbc_world.specs.History.{Recording};

    ghost Value = { Recording };

    ghost view = { λ l. l.chronicle };

    ghost invariant = { λ l. IsKept l.chronicle l.table };
}

impl Ledger {
    /// Opens the file whose journal this is, with room for that many lock requests. Where there is no memory for it, the
    /// journal is handed back.
    pub(crate) fn open(alloc: Global, locks: u32, journal: Chronicle) -> Result<Ledger, Chronicle>
        requires { (owner : ℕ) → is_alive (recorded journal) owner ≡ false }
        ensures opened { IfOk result (λ ledger. Adds journal ledger (by 0 (act.Opened locks) ∷ [])) }
        ensures back { IfErr result (λ back. Adds journal back []) }
        ensures spare_back { IfErr result (λ back. journal.spare ≤ back.spare) }
    {
        let mut journal = journal;
        journal.is_at_rest();
        let Ok(table) = LockTable::new(alloc, locks) else {
            return Err(journal);
        };
        if journal.reserve(1).is_err() {
            return Err(journal);
        }
        journal.push(Event {
            actor: 0,
            act: Act::Opened { locks },
        });
        Ok(Ledger {
            table,
            chronicle: journal,
        })
    }

    /// Reserves that many steps.
    pub(crate) fn reserve(&mut self, steps: u32) -> Result<(), AllocError>
        ensures ok { OnOk result (HasReserved self.new steps) }
        ensures adds { Adds self.old self.new [] }
        ensures room { (n : ℕ) → HasRoom self.old n → HasRoom self.new n }
    {
        let events = events_of(steps)?;
        self.chronicle.reserve(events)
    }

    /// Whether somebody waits for a page that the owner keeps from it.
    pub(crate) fn is_called(&self, owner: u32) -> bool
        ensures { IsTrue result ↔ ((page : ℕ) × IsSome (blocked_by (locks_in self.now) owner page)) }
    {
        next_callback(&self.table, owner, None).is_some()
    }

    /// A ledger tells that its journal does not end within a step.
    pub(crate) fn is_at_rest(&self)
        ensures { IsAtRest (recorded self.now) }
    {
        self.chronicle.is_at_rest();
    }

    /// Records an act that changes no request, and by which nobody comes, goes or dies.
    pub(crate) fn record(&mut self, owner: u32, act: Act)
        requires quiet { is_quiet act ≡ true }
        requires room { HasRoom self.old 1 }
        ensures adds { Adds self.old self.new (by owner act ∷ []) }
        ensures room { UsesRoom self.old self.new 1 }
    {
        self.chronicle.push(Event { actor: owner, act });
    }

    /// An owner comes, the next one of all, where fewer than eight are alive.
    pub(crate) fn enter(&mut self, owner: u32, buffers: u32, name: u8)
        requires next { owner ≡ suc (entered (recorded self.old)) }
        requires few { owner ≤ most_owners }
        requires place { length (living (recorded self.old)) < 8 }
        requires room { HasRoom self.old 2 }
        ensures adds { Adds self.old self.new (by owner (act.Enter buffers name) ∷ []) }
        ensures room { UsesRoom self.old self.new 2 }
    {
        self.chronicle.push(Event {
            actor: owner,
            act: Act::Enter { buffers, name },
        });
    }

    /// The owner goes, which has no request.
    pub(crate) fn leave(&mut self, owner: u32)
        requires none { first_of (locks_in self.old) owner ≡ None }
        requires room { HasRoom self.old 1 }
        ensures adds { Adds self.old self.new (by owner act.Leave ∷ []) }
        ensures room { UsesRoom self.old self.new 1 }
    {
        self.chronicle.push(Event {
            actor: owner,
            act: Act::Leave,
        });
    }

    /// The owner dies. There is a place for it.
    pub(crate) fn die(&mut self, owner: u32)
        requires alive { is_alive (recorded self.old) owner ≡ true }
        ensures adds { Adds self.old self.new (by owner act.Die ∷ []) }
        ensures room { (n : ℕ) → HasRoom self.old n → HasRoom self.new n }
    {
        self.table.die(owner);
        self.chronicle.push(Event {
            actor: owner,
            act: Act::Die,
        });
    }
}

impl Ledger {
    /// A write of the owner's draft fails, of which it dies.
    pub(crate) fn fail(&mut self, owner: u32, page: u32, cause: Cause)
        requires alive { is_alive (recorded self.old) owner ≡ true }
        ensures adds { Adds self.old self.new (by owner (act.Write page cause true) ∷ []) }
        ensures room { (n : ℕ) → HasRoom self.old n → HasRoom self.new n }
    {
        self.table.die(owner);
        self.chronicle.push(Event {
            actor: owner,
            act: Act::Write {
                page,
                cause,
                failed: true,
            },
        });
    }

    /// The owner asks for the next callback on a page past this one.
    pub(crate) fn poll(&mut self, owner: u32, above: Option<u32>) -> Answer
        requires room { HasRoom self.old 1 }
        ensures answer { AnswersPoll self.old owner above result }
        ensures adds { Adds self.old self.new (by owner (act.Poll above) ∷ []) }
        ensures room { UsesRoom self.old self.new 1 }
    {
        let callback = next_callback(&self.table, owner, above);
        self.record(owner, Act::Poll { above });
        match callback {
            Some(callback) => Answer::Callback(callback),
            None => Answer::NoCallback,
        }
    }

    /// The owner asks for the least data word of the transactions.
    pub(crate) fn least(&mut self, owner: u32) -> Answer
        requires room { HasRoom self.old 1 }
        ensures answer { result ≡ answers.Least (least_data_of (locks_in self.old) series.Transaction) }
        ensures adds { Adds self.old self.new (by owner act.Least ∷ []) }
        ensures room { UsesRoom self.old self.new 1 }
    {
        let word = self.table.least_data(Series::Transaction);
        self.record(owner, Act::Least);
        Answer::Least { word }
    }

    /// Records what the owner did in its own cache.
    pub(crate) fn record_all(&mut self, owner: u32, local: &[LocalEvent])
        requires room { HasRoom self.old (length local.now) }
        ensures adds { Adds self.old self.new (local_events owner local.now) }
        ensures room { UsesRoom self.old self.new (length local.now) }
    {
        for event in local {
            self.record(owner, Act::Local(*event));
        }
    }
}

/// How many events so many steps add at most, with a place for the death of each owner that may be alive. Where they are more
/// than there are numbers for, no memory has room for them.
fn events_of(steps: u32) -> Result<u32, AllocError>
    ensures { IfOk result (λ events. events ≡ steps * 73 + 8) }
{
    let events = steps as u64 * EVENTS_OF_STEP as u64 + LIVING as u64;
    if events <= u32::MAX as u64 {
        Ok(events as u32)
    } else {
        Err(AllocError)
    }
}
