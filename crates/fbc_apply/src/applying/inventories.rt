//! Edits of page inventories and of transaction inventory pages.

ghost use Rattle.std.specs.Prelude.{◌≡◌, ◌<◌, ◌%◌, length};
ghost use Rattle.fbc_kinds.specs.Limits.{IsPageSize, inventory_bits, tip_numbers};
ghost use Rattle.fbc_kinds.specs.Edits.{IsShape, IsWithinLimits, Tried, covers, may_be, page_freed, page_taken, stands_in, state_marked, with_mark, with_state};

use crate::fitting::{covers, may_be, stands_in};
use fbc_kinds::{Inventory, Page, Shape, State, Tip};

/// The place of a page in the page inventory that covers it.
pub(super) fn page_place(size: u32, number: u32) -> usize
    requires { IsPageSize size }
    ensures place { result ≡ number % inventory_bits size }
    ensures within { result < inventory_bits size }
{
    (number % ((size - 16) * 8)) as usize
}

/// Changes the mark of a page.
fn set_mark(size: u32, number: u32, taken: bool, inventory: &mut Inventory)
    requires size { IsPageSize size }
    requires count { length inventory.old.taken ≡ inventory_bits size }
    ensures { inventory.new ≡ with_mark size number taken inventory.old }
{
    inventory.taken.set(page_place(size, number), taken);
}

/// Shows a page as taken.
pub(super) fn take_page(shape: &Shape, number: u32, page: &mut Page) -> bool
    requires shape { IsShape shape.now }
    requires limits { IsWithinLimits shape.now page.old }
    ensures { Tried result (page_taken shape.now number page.old) page.old page.new }
{
    let Page::Inventory(inventory) = page else {
        return false;
    };
    if !covers(shape.size, inventory.sequence, number) {
        return false;
    }
    set_mark(shape.size, number, true, inventory);
    true
}

/// Shows a page as free.
pub(super) fn free_page(shape: &Shape, number: u32, page: &mut Page) -> bool
    requires shape { IsShape shape.now }
    requires limits { IsWithinLimits shape.now page.old }
    ensures { Tried result (page_freed shape.now number page.old) page.old page.new }
{
    let Page::Inventory(inventory) = page else {
        return false;
    };
    if !covers(shape.size, inventory.sequence, number) {
        return false;
    }
    if number == 0 || number == inventory.page {
        return false;
    }
    set_mark(shape.size, number, false, inventory);
    true
}

/// The place of a transaction number in the transaction inventory page where it stands.
fn number_place(size: u32, number: u32) -> usize
    requires { IsPageSize size }
    ensures place { result ≡ number % tip_numbers size }
    ensures within { result < tip_numbers size }
{
    (number % (4 * (size - 16))) as usize
}

/// Changes the state of a transaction number.
fn set_state(size: u32, number: u32, state: State, tip: &mut Tip)
    requires size { IsPageSize size }
    requires count { length tip.old.states ≡ tip_numbers size }
    ensures { tip.new ≡ with_state size number state tip.old }
{
    tip.states.set(number_place(size, number), state);
}

/// Shows a transaction number in a state.
pub(super) fn mark(shape: &Shape, number: u32, state: State, page: &mut Page) -> bool
    requires shape { IsShape shape.now }
    requires limits { IsWithinLimits shape.now page.old }
    ensures { Tried result (state_marked shape.now number state page.old) page.old page.new }
{
    let Page::Tip(tip) = page else {
        return false;
    };
    if !stands_in(shape.size, tip.sequence, number) {
        return false;
    }
    if !may_be(number, state) {
        return false;
    }
    set_state(shape.size, number, state, tip);
    true
}
