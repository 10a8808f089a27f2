//! The census: who of the owners is alive, and how many came.

ghost use Rattle.std.specs.Prelude.{◌≡◌, ◌==◌, ◌≤◌, [], length};
ghost use Rattle.std.specs.List.{list_any};
ghost use Rattle.fbc_legal.specs.Lives.{entered_step};
ghost use Rattle.fbc_region.specs.Census.{HasPlace, most_owners, residents_step, without};

use arrayvec::ArrayVec;
use fbc_world::Act;

/// So many owners come at most.
pub(crate) const COMING: u32 = 65_536;

/// So many owners are alive at most.
pub(crate) const LIVING: usize = 8;

/// A living owner, and the number of the name by which it came.
#[derive(Clone, Copy, Debug, Default)]
pub(crate) struct Resident {
    pub(crate) owner: u32,
    pub(crate) name: u8,
}

/// How many owners came, and a place for each that is alive, in the order in which they came.
#[derive(Debug, Drop)]
pub(crate) struct Census {
    pub(crate) owners: u32,
    pub(crate) residents: ArrayVec<Resident, 8>,
}

impl Census {
    /// A census of nobody.
    pub(crate) fn new() -> Census
        ensures owners { result.owners ≡ 0 }
        ensures residents { result.residents.items ≡ [] }
    {
        Census {
            owners: 0,
            residents: ArrayVec::new(),
        }
    }

    /// Keeps the census up with an owner's act.
    pub(crate) fn keep_up(&mut self, owner: u32, act: &Act)
        requires few { entered_step self.old.owners act.now ≤ most_owners }
        requires place { HasPlace (length self.old.residents.items) act.now }
        ensures owners { self.new.owners ≡ entered_step self.old.owners act.now }
        ensures residents { self.new.residents.items ≡ residents_step self.old.residents.items owner act.now }
    {
        match act {
            Act::Enter { buffers: _, name } => {
                self.owners += 1;
                self.residents.push(Resident { owner, name: *name });
            }
            Act::Leave | Act::Die => self.leave_out(owner),
            Act::Write {
                page: _,
                cause: _,
                failed,
            } => {
                if *failed {
                    self.leave_out(owner);
                }
            }
            _ => {}
        }
    }

    /// Takes the owner from its place.
    fn leave_out(&mut self, owner: u32)
        ensures owners { self.new.owners ≡ self.old.owners }
        ensures residents { self.new.residents.items ≡ without owner self.old.residents.items }
    {
        self.residents.retain(|resident| resident.owner != owner);
    }

    /// How many owners have a place.
    pub(crate) fn count(&self) -> usize
        ensures { result ≡ length self.now.residents.items }
    {
        self.residents.len()
    }

    /// Whether the owner has a place.
    pub(crate) fn has(&self, owner: u32) -> bool
        ensures { result ≡ list_any (λ resident. resident.owner == owner) self.now.residents.items }
    {
        self.residents
            .iter()
            .any(|resident| resident.owner == owner)
    }

    /// Whether an owner with a place came by the name.
    pub(crate) fn has_name(&self, name: u8) -> bool
        ensures { result ≡ list_any (λ resident. resident.name == name) self.now.residents.items }
    {
        self.residents.iter().any(|resident| resident.name == name)
    }
}
