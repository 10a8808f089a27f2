//! What stands in a page, as text. Of like items one behind the other the places of the first and of
//! the last are told, and then what they are.

use fbc_kinds::{Cell, Flag, Header, Page, State};
use fbc_samples::{Fault, push_bytes};
use std::alloc::Global;

/// What stands in a page.
pub fn described(alloc: Global, page: &Page) -> Result<String, Fault> {
    let mut out = String::new(alloc);
    match page {
        Page::Header(header) => describe_header(header, &mut out)?,
        Page::Inventory(inventory) => {
            write!(out, "inventory {} {}", inventory.page, inventory.sequence)?;
            tell_all(inventory.taken.items(), &mut out)?;
        }
        Page::Tip(tip) => {
            write!(out, "tip {} {}", tip.page, tip.sequence)?;
            tell_all(tip.states.items(), &mut out)?;
        }
        Page::Pointer(pointer) => {
            let (page, relation) = (pointer.page, pointer.relation);
            write!(out, "pointer {page} {relation} {}", pointer.sequence)?;
            tell_all(pointer.slots.items(), &mut out)?;
        }
        Page::Data(data) => {
            write!(
                out,
                "data {} {} {}",
                data.page, data.relation, data.sequence
            )?;
            tell_all(data.cells.items(), &mut out)?;
        }
        Page::Blank => out.push_str("blank")?,
    }
    Ok(out)
}

/// Tells a header: its numbers, its transaction inventory pages and its relations.
fn describe_header(header: &Header, out: &mut String) -> Result<(), Fault> {
    let Header {
        size,
        next,
        inventories,
        oldest,
        ..
    } = header;
    write!(
        out,
        "header size {size} next {next} inventories {inventories} oldest {oldest} tips"
    )?;
    push_numbers(header.tips.items(), out)?;
    for relation in header.relations.items() {
        out.push_str(", ")?;
        push_bytes(relation.name.as_bytes(), out)?;
        write!(out, " {} pointers", relation.length)?;
        push_numbers(relation.pointers.items(), out)?;
    }
    Ok(())
}

/// Adds numbers, each behind a space.
fn push_numbers(numbers: &[u32], out: &mut String) -> Result<(), Fault> {
    for number in numbers {
        write!(out, " {number}")?;
    }
    Ok(())
}

/// An item of a page.
trait Told {
    /// Adds what the item is.
    fn tell(&self, out: &mut String) -> Result<(), Fault>;
}

impl Told for bool {
    fn tell(&self, out: &mut String) -> Result<(), Fault> {
        Ok(out.push_str(if *self { "taken" } else { "free" })?)
    }
}

impl Told for State {
    fn tell(&self, out: &mut String) -> Result<(), Fault> {
        Ok(out.push_str(match self {
            State::Active => "active",
            State::Limbo => "limbo",
            State::Dead => "dead",
            State::Committed => "committed",
        })?)
    }
}

impl Told for u32 {
    fn tell(&self, out: &mut String) -> Result<(), Fault> {
        Ok(write!(out, "{self}")?)
    }
}

impl Told for Cell {
    fn tell(&self, out: &mut String) -> Result<(), Fault> {
        let Cell {
            flag,
            number,
            back_page,
            back_cell,
            value,
        } = self;
        let flag = match flag {
            Flag::Empty => return Ok(out.push_str("empty")?),
            Flag::Primary => "primary",
            Flag::Deletion => "deletion",
            Flag::Back => "back",
        };
        write!(out, "{flag} {number} {back_page} {back_cell}")?;
        if !value.as_bytes().is_empty() {
            out.push_str(" ")?;
        }
        push_bytes(value.as_bytes(), out)
    }
}

/// Tells items by their places, like ones together.
fn tell_all<T: Told + PartialEq>(items: &[T], out: &mut String) -> Result<(), Fault> {
    let mut first = 0;
    for (at, item) in items.iter().enumerate() {
        if items.get(at + 1).is_none_or(|next| *next != *item) {
            out.push_str(", ")?;
            if first < at {
                write!(out, "{first}-")?;
            }
            write!(out, "{at} ")?;
            item.tell(out)?;
            first = at + 1;
        }
    }
    Ok(())
}
