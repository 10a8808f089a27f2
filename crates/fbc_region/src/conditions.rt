//! Whether a step may be taken, as a test.

ghost use Rattle.std.specs.Prelude.{◌≡◌, ◌↔◌, ◌≤◌, suc, IsTrue, is_some, true};
ghost use Rattle.fbc_legal.specs.Guards.{GuardOfEnter};
ghost use Rattle.fbc_owner_queues.specs.Grants.{first_of};
ghost use Rattle.fbc_region.specs.Census.{most_owners};
ghost use Rattle.fbc_region.specs.Conditions.{MayCome};
ghost use Rattle.fbc_region.specs.Stepping.{MayPerform, MeetsConditions, recorded_scene};
ghost use Rattle.fbc_world.specs.History.{recorded};
ghost use Rattle.fbc_world.specs.Owners.{is_alive};

use crate::census::COMING;
use crate::chronicles::Chronicle;
use crate::ledgers::Ledger;
use crate::regions::Region;
use fbc_levels::join;
use fbc_lock_table::LockTable;
use fbc_outside::Device;
use fbc_world::Ask;

impl<D: Device> Region<D> {
    /// Whether the owner may take this step: the condition of `perform` on the ask, as a test.
    pub fn may_perform(&self, who: u32, ask: &Ask) -> bool
        ensures { IsTrue result ↔ MayPerform (D.reach self.now.device) self.now.size self.now.journal who ask.now }
    {
        match ask {
            Ask::Enter { buffers: _, name } => self.ledger.may_enter(who, *name),
            _ => {
                let reach = self.device.reach();
                self.ledger.may_go_on(reach, self.size, who, ask)
            }
        }
    }
}

impl Ledger {
    /// Whether an owner may come by the name.
    fn may_enter(&self, who: u32, name: u8) -> bool
        ensures { IsTrue result ↔ GuardOfEnter (recorded_scene self.now) who name }
    {
        may_come(&self.chronicle, who, name)
    }

    /// Whether the owner is alive, and what is owed for its ask is met.
    fn may_go_on(&self, reach: u64, size: u32, who: u32, ask: &Ask) -> bool
        ensures { IsTrue result ↔ ((is_alive (recorded self.now) who ≡ true) × MeetsConditions reach size self.now who ask.now) }
    {
        self.chronicle.is_alive(who) && self.meets(reach, size, who, ask)
    }

    /// Whether what is owed for the ask of a living owner is met.
    fn meets(&self, reach: u64, size: u32, who: u32, ask: &Ask) -> bool
        ensures { IsTrue result ↔ MeetsConditions reach size self.now who ask.now }
    {
        match ask {
            Ask::Leave => !has_request(&self.table, who),
            Ask::Lock {
                resource,
                level,
                wait: _,
                word: _,
            } => self.table.may_ask(who, *resource, *level),
            Ask::Lower { resource, level } => {
                let granted = self.table.granted(who, *resource);
                join(granted, *level) == granted
            }
            Ask::Write { page, cause: _ } => (*page as u64 + 1) * size as u64 <= reach,
            _ => true,
        }
    }
}

/// Whether an owner may come by the name.
fn may_come(chronicle: &Chronicle, who: u32, name: u8) -> bool
    ensures { IsTrue result ↔ MayCome (recorded chronicle.now) who name }
{
    is_next(chronicle.owners(), who)
        && chronicle.has_place()
        && is_name(name)
        && !chronicle.has_name(name)
}

/// Whether the owner is the next one behind so many, and not one too many.
fn is_next(owners: u32, who: u32) -> bool
    ensures { IsTrue result ↔ ((who ≡ suc owners) × (who ≤ most_owners)) }
{
    owners < COMING && who == owners + 1
}

/// Whether it is the number of a name.
fn is_name(name: u8) -> bool
    ensures { IsTrue result ↔ ((1 ≤ name) × (name ≤ 8)) }
{
    name >= 1 && name <= 8
}

/// Whether the owner has a request.
fn has_request(table: &LockTable, owner: u32) -> bool
    ensures { result ≡ is_some (first_of table.now owner) }
{
    for k in 0..table.used() {
        let request = table.request(k);
        if request.owner == owner {
            return true;
        }
    }
    false
}
