//! The steps over locks: asks, looks and withdrawals.

ghost use Rattle.std.specs.Prelude.{◌≡◌, ◌∷◌, [], None, true, is_some};
ghost use Rattle.fbc_levels.specs.LockState.{is_wait_of, wait_of};
ghost use Rattle.fbc_lock_table.specs.Answers.{MayAsk};
ghost use Rattle.fbc_region.specs.Adding.{Adds, UsesRoom, by};
ghost use Rattle.fbc_region.specs.Answering.{IsAsked, IsLooked, answer_to_withdrawal};
ghost use Rattle.fbc_region.specs.Shared.{HasRoom, locks_in};
ghost use Rattle.fbc_world.specs.declared.answers.Answer.TheVariants as answers;
ghost use Rattle.fbc_world.specs.declared.events.Act.TheVariants as act;
ghost use Rattle.fbc_world.specs.History.{recorded};
ghost use Rattle.fbc_world.specs.Owners.{is_alive};

use crate::ledgers::Ledger;
use fbc_levels::{Level, Request, Resource};
use fbc_lock_table::{Asked, LockTable, Looked};
use fbc_owner_queues::{cycle_from, living_owners_are_few};
use fbc_world::{Act, Answer, Ask, Event};

impl Ledger {
    /// The owner asks for the level on the resource, and waits for it if need be and if it may.
    pub(crate) fn ask(
        &mut self,
        owner: u32,
        resource: Resource,
        level: Level,
        wait: bool,
        word: u32,
    ) -> Answer
        requires alive { is_alive (recorded self.old) owner ≡ true }
        requires may { MayAsk (locks_in self.old) owner resource level }
        requires room { HasRoom self.old 9 }
        ensures step { IsAsked self.old self.new owner resource level wait word result }
        ensures room { UsesRoom self.old self.new 9 }
    {
        let asked = self.table.ask(owner, resource, level, wait, word);
        if let Asked::Dead { owner: dead } = asked {
            let by = Ask::Lock {
                resource,
                level,
                wait,
                word,
            };
            self.reap(owner, dead, by);
            return Answer::Reaped { owner: dead };
        }
        if let Asked::Granted = asked {
            self.chronicle
                .push_granted(owner, resource, level, wait, word);
            return Answer::Granted;
        }
        self.chronicle.push(Event {
            actor: owner,
            act: Act::Ask {
                resource,
                level,
                wait,
                word,
            },
        });
        match asked {
            Asked::Granted => Answer::Granted,
            Asked::Queued => {
                living_owners_are_few();
                match cycle_from(&self.table, owner) {
                    Some(cycle) => {
                        self.table.withdraw(owner);
                        Answer::Deadlock { cycle }
                    }
                    None => Answer::Queued,
                }
            }
            Asked::Busy {
                holder,
                level: held,
            } => Answer::Busy {
                holder,
                level: held,
            },
            Asked::Room { used } => Answer::Room { used },
            Asked::Dead { owner: dead } => Answer::Reaped { owner: dead },
        }
    }

    /// The owner looks whether what it waits for is granted.
    pub(crate) fn look(&mut self, owner: u32) -> Answer
        requires room { HasRoom self.old 9 }
        ensures step { IsLooked self.old self.new owner result }
        ensures room { UsesRoom self.old self.new 9 }
    {
        match self.table.look(owner) {
            Looked::Granted => {
                self.record(owner, Act::Look);
                Answer::Granted
            }
            Looked::NotYet { holder } => {
                self.record(owner, Act::Look);
                Answer::NotYet { holder }
            }
            Looked::Dead { owner: dead } => {
                self.reap(owner, dead, Ask::Look);
                Answer::Reaped { owner: dead }
            }
        }
    }

    /// The owner waits no more. It is told where it does not wait any more, since its ask was granted.
    pub(crate) fn withdraw(&mut self, owner: u32) -> Answer
        requires room { HasRoom self.old 9 }
        ensures answer { result ≡ answer_to_withdrawal (wait_of (locks_in self.old) owner) }
        ensures adds { Adds self.old self.new (by owner act.Withdraw ∷ []) }
        ensures stays { result ≡ answers.Granted → locks_in self.new ≡ locks_in self.old }
        ensures room { UsesRoom self.old self.new 9 }
    {
        let waited = waits(&self.table, owner);
        self.table.withdraw(owner);
        self.chronicle.push(Event {
            actor: owner,
            act: Act::Withdraw,
        });
        if waited {
            Answer::Noted
        } else {
            Answer::Granted
        }
    }
}

/// Whether the owner waits.
fn waits(table: &LockTable, owner: u32) -> bool
    ensures { result ≡ is_some (wait_of table.now owner) }
{
    for k in 0..table.used() {
        let request = table.request(k);
        if is_wait(&request, owner) {
            return true;
        }
    }
    false
}

/// Whether the owner waits by the request.
fn is_wait(request: &Request, owner: u32) -> bool
    ensures { result ≡ is_wait_of owner request.now }
{
    request.owner == owner && request.waiting.is_some()
}
