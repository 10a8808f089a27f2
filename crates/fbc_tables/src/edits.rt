//! Edits of a page: which ones fit, and the page after them.

ghost use Rattle.std.specs.Prelude.{◌≡◌, IfOk};
ghost use Rattle.fbc_kinds.specs.Edits.{IsShape, IsWithinLimits};

use crate::pages::described;
use crate::values::value_of;
use fbc_apply::apply;
use fbc_kinds::{
    ApplyFault, Cell, Edit, Flag, Header, Inventory, Listed, Name, Page, Relation, Shape, State,
};
use fbc_samples::{Fault, words_of};
use std::alloc::{AllocError, Global};

/// Answers one line over the page that the lines before it have left. `page` begins with another
/// page, `show` tells the page, and every other line is an edit, which fits or is refused.
pub fn answer(alloc: Global, shape: &Shape, page: &mut Page, line: &str) -> Result<String, Fault>
    requires shape { IsShape shape.now }
    requires size { shape.now.size ≡ 1024 }
    requires limits { IsWithinLimits shape.now page.old }
    ensures { IsWithinLimits shape.now page.new }
{
    let words = words_of(alloc, line)?;
    match *words.as_slice() {
        ["page", kind] => {
            *page = first_page(alloc, shape, kind)?;
            described(alloc, page)
        }
        ["show"] => described(alloc, page),
        _ => {
            let edit = edit_of(&words)?;
            let outcome = match apply(alloc, shape, &edit, page) {
                Ok(()) => "fits",
                Err(ApplyFault::Unfit) => "refused",
                Err(ApplyFault::Memory) => return Err(Fault::Memory),
            };
            Ok(String::from_str(alloc, outcome)?)
        }
    }
}

/// The page with which a table of edits begins: of zeros, the first page inventory with every page
/// taken, or a header of one relation, one transaction inventory page and all page inventories but
/// one.
fn first_page(alloc: Global, shape: &Shape, kind: &str) -> Result<Page, Fault>
    requires shape { IsShape shape.now }
    requires size { shape.now.size ≡ 1024 }
    ensures { IfOk result (IsWithinLimits shape.now) }
{
    match kind {
        "blank" => Ok(Page::Blank),
        "inventory" => Ok(full_inventory(alloc, shape)?),
        "header" => Ok(long_header(alloc, shape)?),
        _ => Err(Fault::Unreadable),
    }
}

fn full_inventory(alloc: Global, shape: &Shape) -> Result<Page, AllocError>
    requires { IsShape shape.now }
    ensures { IfOk result (IsWithinLimits shape.now) }
{
    let count = (shape.size as usize - 16) * 8;
    Ok(Page::Inventory(Inventory {
        page: 1,
        sequence: 0,
        taken: Listed::new(vec![in alloc; true; count]?),
    }))
}

fn long_header(alloc: Global, shape: &Shape) -> Result<Page, AllocError>
    requires { shape.now.size ≡ 1024 }
    ensures { IfOk result (IsWithinLimits shape.now) }
{
    let relation = Relation {
        name: Name::new(b"t"),
        length: 10,
        pointers: Listed::new(vec![in alloc; 3]?),
    };
    Ok(Page::Header(Header {
        size: 1024,
        next: 1,
        inventories: 63,
        oldest: 0,
        relations: Listed::new(vec![in alloc; relation]?),
        tips: Listed::new(vec![in alloc; 2]?),
    }))
}

/// The edit that words say: its name and its numbers in the order of its fields.
pub fn edit_of(words: &[&str]) -> Result<Edit, Fault> {
    match *words {
        ["set_next", next] => Ok(Edit::SetNext {
            next: next.parse()?,
        }),
        ["add_tip", page] => Ok(Edit::AddTip {
            page: page.parse()?,
        }),
        ["add_pointer", relation, page] => Ok(Edit::AddPointer {
            relation: relation.parse()?,
            page: page.parse()?,
        }),
        ["add_inventory"] => Ok(Edit::AddInventory),
        ["take_page", page] => Ok(Edit::TakePage {
            page: page.parse()?,
        }),
        ["free_page", page] => Ok(Edit::FreePage {
            page: page.parse()?,
        }),
        ["mark", number, state] => Ok(Edit::Mark {
            number: number.parse()?,
            state: state_of(state)?,
        }),
        ["name", slot, page] => Ok(Edit::Name {
            slot: slot.parse()?,
            page: page.parse()?,
        }),
        ["unname", slot] => Ok(Edit::Unname {
            slot: slot.parse()?,
        }),
        ["put_cell", cell, ref content @ ..] => Ok(Edit::PutCell {
            cell: cell.parse()?,
            content: cell_of(content)?,
        }),
        ["clear_cell", cell] => Ok(Edit::ClearCell {
            cell: cell.parse()?,
        }),
        ["format", kind, page, relation, sequence] => Ok(Edit::Format {
            kind: kind.parse()?,
            page: page.parse()?,
            relation: relation.parse()?,
            sequence: sequence.parse()?,
        }),
        _ => Err(Fault::Unreadable),
    }
}

fn state_of(word: &str) -> Result<State, Fault> {
    match word {
        "active" => Ok(State::Active),
        "limbo" => Ok(State::Limbo),
        "dead" => Ok(State::Dead),
        "committed" => Ok(State::Committed),
        _ => Err(Fault::Unreadable),
    }
}

/// The cell of these words: flag, number, back page, back cell, and the value, which may be empty.
fn cell_of(words: &[&str]) -> Result<Cell, Fault> {
    let [flag, number, back_page, back_cell, value] = *words else {
        return Err(Fault::Unreadable);
    };
    Ok(Cell {
        flag: flag_of(flag)?,
        number: number.parse()?,
        back_page: back_page.parse()?,
        back_cell: back_cell.parse()?,
        value: value_of(value)?,
    })
}

fn flag_of(word: &str) -> Result<Flag, Fault> {
    match word {
        "empty" => Ok(Flag::Empty),
        "primary" => Ok(Flag::Primary),
        "deletion" => Ok(Flag::Deletion),
        "back" => Ok(Flag::Back),
        _ => Err(Fault::Unreadable),
    }
}
