//! The grants that a lowering or a purge causes.

ghost use Rattle.std.specs.Prelude.{◌≡◌, ◌≤◌, ◌+◌, ◌∷◌, [], List};
ghost use Rattle.fbc_legal.specs.Lives.{entered};
ghost use Rattle.fbc_levels.specs.Levels.{join};
ghost use Rattle.fbc_levels.specs.LockState.{IsDead, IsLawful, granted_of};
ghost use Rattle.fbc_region.specs.Adding.{Adds, UsesRoom, by};
ghost use Rattle.fbc_region.specs.Census.{most_owners};
ghost use Rattle.fbc_region.specs.Granting.{AddsWithGrants, GrantedOn, Purged, resources_of, waits_in};
ghost use Rattle.fbc_region.specs.Shared.{HasRoom, locks_in};
ghost use Rattle.fbc_world.specs.declared.events.Act.TheVariants as act;
ghost use Rattle.fbc_world.specs.History.{recorded};
ghost use Rattle.fbc_world.specs.declared.events.Event.{Event as AnEvent};

use crate::chronicles::Chronicle;
use crate::ledgers::Ledger;
use fbc_kinds::Reply;
use fbc_levels::{Level, Resource};
use fbc_lock_table::LockTable;
use fbc_owner_queues::{grant_waiting, purge};
use fbc_world::{Act, Ask, Event};

/// Grants what waits for the resource, in the order of asking, until nobody can be granted, and records each grant.
pub(crate) fn grant_all(table: &mut LockTable, chronicle: &mut Chronicle, resource: Resource)
    requires lawful { IsLawful table.old }
    requires few { entered (recorded chronicle.old) ≤ most_owners }
    requires room { waits_in table.old ≤ chronicle.old.spare }
    ensures grants { (grants : List AnEvent) × Adds chronicle.old chronicle.new grants × GrantedOn resource table.old grants table.new }
    ensures lawful { IsLawful table.new }
    ensures few { entered (recorded chronicle.new) ≤ most_owners }
    ensures room { chronicle.old.spare + waits_in table.new ≤ chronicle.new.spare + waits_in table.old }
{
    while let Some(owner) = grant_waiting(table, resource) {
        let level = table.granted(owner, resource);
        chronicle.push(Event {
            actor: owner,
            act: Act::Grant { resource, level },
        });
    }
}

/// Takes away the requests of the dead owner, in the order of asking, and after each grants what can be granted then.
fn purge_all(table: &mut LockTable, chronicle: &mut Chronicle, dead: u32)
    requires dead { IsDead table.old dead }
    requires lawful { IsLawful table.old }
    requires few { entered (recorded chronicle.old) ≤ most_owners }
    requires room { waits_in table.old ≤ chronicle.old.spare }
    ensures grants { (grants : List AnEvent) × Adds chronicle.old chronicle.new grants × Purged dead table.old grants table.new }
    ensures room { chronicle.old.spare + waits_in table.new ≤ chronicle.new.spare + waits_in table.old }
{
    while let Some(resource) = purge(table, dead) {
        is_lawful(table);
        grant_all(table, chronicle, resource);
    }
}

/// A table tells that it is lawful.
fn is_lawful(table: &LockTable)
    ensures { IsLawful table.now }
{
    let _used = table.used();
}

impl Ledger {
    /// The owner lowers its level on the resource, and what can be granted then is granted.
    pub(crate) fn lower(&mut self, owner: u32, resource: Resource, level: Level)
        requires part { join (granted_of (locks_in self.old) owner resource) level ≡ granted_of (locks_in self.old) owner resource }
        requires room { HasRoom self.old 9 }
        ensures adds { AddsWithGrants self.old self.new (by owner (act.Lower resource level)) (resource ∷ []) }
        ensures room { UsesRoom self.old self.new 9 }
    {
        self.table.lower(owner, resource, level);
        self.chronicle.push(Event {
            actor: owner,
            act: Act::Lower { resource, level },
        });
        is_lawful(&self.table);
        grant_all(&mut self.table, &mut self.chronicle, resource);
    }

    /// For an ask of this owner, what the dead one left is taken away, and what can be granted then is granted.
    pub(crate) fn reap(&mut self, owner: u32, dead: u32, ask: Ask)
        requires dead { IsDead (locks_in self.old) dead }
        requires room { HasRoom self.old 9 }
        ensures adds { AddsWithGrants self.old self.new (by owner (act.Reap dead ask)) (resources_of (locks_in self.old) dead) }
        ensures room { UsesRoom self.old self.new 9 }
    {
        // The types inside an ask are named here for the borrow checker.
        let _told: Option<&Reply> = None;
        self.chronicle.push(Event {
            actor: owner,
            act: Act::Reap {
                owner: dead,
                by: ask,
            },
        });
        is_lawful(&self.table);
        purge_all(&mut self.table, &mut self.chronicle, dead);
    }
}
