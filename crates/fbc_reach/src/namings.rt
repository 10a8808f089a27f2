//! Which pages a page names, and in which roles.

ghost use Rattle.std.specs.Prelude.{◌≡◌, ◌<◌, ◌≤◌, ◌+◌, ◌*◌, ◌++◌, ◌∷◌, [], ℕ, Some, IfOk, OnOk, filter, length, slice_get};
ghost use Rattle.fbc_kinds.specs.HeaderSpelling.{IsHeader, IsRelation};
ghost use Rattle.fbc_kinds.specs.Limits.{IsPageSize, inventory_limit, slots};
ghost use Rattle.fbc_kinds.specs.View.{inventory_page};
ghost use Rattle.fbc_reach.specs.Walk.{naming, inventories_named, inventory_namings, named_in_row, names_a_page, pointer_namings, pointers_named, tip_namings};
ghost use Rattle.fbc_reach.specs.declared.namings.Role.TheVariants as role;
ghost use Rattle.fbc_kinds.specs.declared.pages.Relation.{Relation};

use fbc_kinds::{Header, Relation};
use std::alloc::{AllocError, Global};

/// A role that a page can have in a file: its kind, and where that has them its relation and its
/// sequence.
#[derive(Clone, Copy, Debug, PartialEq, Eq)]
pub enum Role {
    Header,
    Inventory { sequence: u32 },
    Tip { sequence: u32 },
    Pointer { relation: u8, sequence: u32 },
    Data { relation: u8, sequence: u32 },
}

/// A page that is named in a role.
#[derive(Clone, Copy, Debug, PartialEq, Eq)]
pub struct Naming {
    pub page: u32,
    pub role: Role,
}

/// The pages that a header names: page inventories, transaction inventory pages, pointer pages.
pub(crate) fn header_namings(alloc: Global, header: &Header) -> Result<Vec<Naming>, AllocError>
    requires size { IsPageSize header.now.size }
    requires header { IsHeader header.now.size header.now }
    ensures { IfOk result (λ namings. namings.items
        ≡ inventory_namings (Some header.now) ++ tip_namings (Some header.now) ++ pointer_namings (Some header.now)) }
{
    let mut namings = Vec::new(alloc);
    push_inventories(&mut namings, header.size, header.inventories)?;
    push_tips(&mut namings, header.tips.items())?;
    push_relations(&mut namings, header.relations.items())?;
    Ok(namings)
}

/// Adds the first page inventories, by their sequence.
fn push_inventories(namings: &mut Vec<Naming>, size: u32, count: u16) -> Result<(), AllocError>
    requires size { IsPageSize size }
    requires count { count ≤ inventory_limit }
    ensures { OnOk result (namings.new.items ≡ namings.old.items ++ inventories_named size count) }
{
    for sequence in 0..count {
        namings.push(Naming {
            page: inventory_page(size, sequence),
            role: Role::Inventory {
                sequence: u32::from(sequence),
            },
        })?;
    }
    Ok(())
}

/// Where the page inventory of a sequence stands.
pub fn inventory_page(size: u32, sequence: u16) -> u32
    requires size { IsPageSize size }
    requires sequence { sequence < inventory_limit }
    ensures { result ≡ inventory_page size sequence }
{
    if sequence == 0 {
        return 1;
    }
    u32::from(sequence) * ((size - 16) * 8)
}

/// Adds the transaction inventory pages, by their sequence.
fn push_tips(namings: &mut Vec<Naming>, tips: &[u32]) -> Result<(), AllocError>
    requires { length tips.now ≤ 16 }
    ensures { OnOk result (namings.new.items ≡ namings.old.items ++ named_in_row role.Tip 0 tips.now) }
{
    for (sequence, page) in tips.iter().enumerate() {
        namings.push(Naming {
            page: *page,
            role: Role::Tip {
                sequence: sequence as u32,
            },
        })?;
    }
    Ok(())
}

/// Adds the pointer pages of all relations.
fn push_relations(namings: &mut Vec<Naming>, relations: &[Relation]) -> Result<(), AllocError>
    requires count { length relations.now ≤ 8 }
    requires each { (i : ℕ) (relation : Relation) → slice_get relations.now i ≡ Some relation → IsRelation relation }
    ensures { OnOk result (namings.new.items ≡ namings.old.items ++ pointers_named 0 relations.now) }
{
    for (number, relation) in relations.iter().enumerate() {
        push_pointers(namings, number as u8, relation.pointers.items())?;
    }
    Ok(())
}

/// Adds the pointer pages of a relation, by their sequence.
fn push_pointers(
    namings: &mut Vec<Naming>,
    relation: u8,
    pointers: &[u32],
) -> Result<(), AllocError>
    requires { length pointers.now ≤ 4 }
    ensures { OnOk result (namings.new.items ≡ namings.old.items ++ named_in_row (role.Pointer relation) 0 pointers.now) }
{
    for (sequence, page) in pointers.iter().enumerate() {
        namings.push(Naming {
            page: *page,
            role: Role::Pointer {
                relation,
                sequence: sequence as u32,
            },
        })?;
    }
    Ok(())
}

/// Adds the data pages that a pointer page of this sequence names in its slots.
pub(crate) fn push_slots(
    namings: &mut Vec<Naming>,
    relation: u8,
    sequence: u32,
    slots: &[u32],
) -> Result<(), AllocError>
    requires sequence { sequence < 4 }
    requires count { length slots.now ≤ 4092 }
    ensures { OnOk result (namings.new.items
        ≡ namings.old.items ++ filter names_a_page (named_in_row (role.Data relation) (sequence * length slots.now) slots.now)) }
{
    let first = sequence * slots.len() as u32;
    for (slot, page) in slots.iter().enumerate() {
        let role = Role::Data {
            relation,
            sequence: first + slot as u32,
        };
        push_slot(namings, *page, role)?;
    }
    Ok(())
}

/// Adds the page that a slot names, if it names one.
fn push_slot(namings: &mut Vec<Naming>, page: u32, role: Role) -> Result<(), AllocError>
    ensures { OnOk result (namings.new.items ≡ namings.old.items ++ filter names_a_page (naming page role ∷ [])) }
{
    if page == 0 {
        return Ok(());
    }
    namings.push(Naming { page, role })?;
    Ok(())
}
