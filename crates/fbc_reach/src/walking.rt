//! The walk: from the header over the pointer pages to the data pages.

ghost use Rattle.std.specs.Prelude.{◌≡◌, ◌<◌, ◌++◌, ℕ, List, Some, Err, IfOk, OnOk, nat_eq, slice_get};
ghost use Rattle.indexmap.specs.IndexMap.{get};
ghost use Rattle.fbc_kinds.specs.File.{IsViewOf};
ghost use Rattle.fbc_kinds.specs.HeaderSpelling.{IsHeader, IsFileShape};
ghost use Rattle.fbc_kinds.specs.View.{View, header_of};
ghost use Rattle.fbc_outside.specs.Frames.{IsFaithful, IsUnwritten};
ghost use Rattle.fbc_reach.specs.Content.{IsReadOf};
ghost use Rattle.fbc_reach.specs.Roles.{is_same_role};
ghost use Rattle.fbc_reach.specs.Tally.{HasFewSlots, IsTallyOf, KeepsFewSlots, HasFewPlaces, is_walked_for, named_as_kept, named_by_tally, named_in_content};
ghost use Rattle.fbc_reach.specs.Walk.{data_namings, namings};
ghost use Rattle.fbc_reach.specs.declared.namings.Naming.{Naming};

use crate::content::{Content, PageRead};
use crate::faults::ReadFault;
use crate::namings::{Naming, Role, header_namings, push_slots};
use crate::tally::{Tally, is_same_role};
use fbc_kinds::{Header, Shape};
use fbc_outside::Device;
use std::alloc::{AllocError, Global};

/// What a walk gave.
#[derive(Drop)]
pub struct Visited {
    /// What was found of each page that is named.
    pub tally: Tally,
    /// The data pages that the pointer pages name, in the order of the walk.
    pub found: Vec<Naming>,
}

/// Notes all pages of the file of this header, whose first page was read. Each of the others is read
/// at the first of its namings. The device's bytes stay as they are.
pub fn walk<D: Device>(
    alloc: Global,
    device: &mut D,
    shape: &Shape,
    header: &Header,
    first: PageRead,
) -> Result<Visited, ReadFault>
    requires shape { IsFileShape shape.now }
    requires header { IsHeader header.now.size header.now }
    requires size { header.now.size ≡ shape.now.size }
    requires first { IsReadOf shape.now 0 (D.bytes device.old) first }
    ensures walked { IfOk result (λ visited. (bytes : List ℕ) (view : View)
        → D.bytes device.old ≡ Some bytes
        → IsViewOf shape.now bytes view
        → header_of view ≡ Some header.now
        → IsTallyOf shape.now (Some bytes) (namings view) visited.tally) }
    ensures found { IfOk result (λ visited. (bytes : List ℕ) (view : View)
        → D.bytes device.old ≡ Some bytes
        → IsViewOf shape.now bytes view
        → header_of view ≡ Some header.now
        → visited.found.items ≡ data_namings view) }
    ensures next { IfOk result (λ visited. visited.tally.next ≡ header.now.next) }
    ensures unwritten { IsUnwritten D.bytes D.writes D.landings device.old device.new }
    ensures device { IsFaithful D.reach D.faults (result ≡ Err ReadFault.DeviceFault) device.old device.new }
{
    let mut tally = Tally::new(alloc, header.next);
    let start = Naming {
        page: 0,
        role: Role::Header,
    };
    tally.keep_first(start, shape.size, first)?;
    let named = header_namings(alloc, header)?;
    tally.note_all(alloc, device, shape, &named)?;
    let found = data_namings(alloc, &tally, &named)?;
    tally.note_all(alloc, device, shape, &found)?;
    Ok(Visited { tally, found })
}

/// The data pages that the pointer pages among these namings name, each of them for the role for
/// which it is walked.
pub(crate) fn data_namings(
    alloc: Global,
    tally: &Tally,
    namings: &[Naming],
) -> Result<Vec<Naming>, AllocError>
    requires slots { (page : ℕ) → KeepsFewSlots (get nat_eq tally.now.pages page) }
    requires places { (i : ℕ) (n : Naming) → slice_get namings.now i ≡ Some n → HasFewPlaces n.role }
    ensures { IfOk result (λ found. found.items ≡ named_by_tally tally.now namings.now) }
{
    let mut found = Vec::new(alloc);
    for naming in namings {
        push_named(&mut found, tally, *naming)?;
    }
    Ok(found)
}

/// Adds the data pages that a page names in this role.
fn push_named(found: &mut Vec<Naming>, tally: &Tally, naming: Naming) -> Result<(), AllocError>
    requires slots { KeepsFewSlots (get nat_eq tally.now.pages naming.page) }
    requires places { HasFewPlaces naming.role }
    ensures { OnOk result (found.new.items ≡ found.old.items ++ named_as_kept naming.role (get nat_eq tally.now.pages naming.page)) }
{
    match tally.get(naming.page) {
        Some(page) if is_walked_for(naming.role, page.walked) => {
            push_data(found, naming.role, &page.read.content)
        }
        _ => Ok(()),
    }
}

/// Whether a page is walked for this role.
pub fn is_walked_for(role: Role, walked: Option<Role>) -> bool
    ensures { result ≡ is_walked_for role walked }
{
    match walked {
        Some(walked) => is_same_role(role, walked),
        None => false,
    }
}

/// Adds the data pages that a pointer page names in its slots.
fn push_data(found: &mut Vec<Naming>, role: Role, content: &Content) -> Result<(), AllocError>
    requires slots { HasFewSlots content.now }
    requires places { HasFewPlaces role }
    ensures { OnOk result (found.new.items ≡ found.old.items ++ named_in_content role content.now) }
{
    match (role, content) {
        (Role::Pointer { relation, sequence }, Content::Pointer { slots, .. }) => {
            push_slots(found, relation, sequence, slots.items())
        }
        _ => Ok(()),
    }
}
