//! The search for a free page.

ghost use Rattle.std.specs.Prelude.{◌≡◌, ◌≤◌, ◌<◌, ◌+◌, ℕ, false, true, Some, None};
ghost use Rattle.fbc_desk.specs.Calls.{GoesOn};
ghost use Rattle.fbc_space.specs.Finding.{GoesPast, IsFull, IsOnlyUsed, StopsAt, is_over};
ghost use Rattle.fbc_space.specs.Steps.{Steps, StepsPastHeader, StepsPastInventory};

use crate::free_pages::choose;
use crate::needs::{look_at_header, look_at_inventory};
use crate::passed::Passed;
use fbc_cache::Need;
use fbc_desk::{Desk, Held};
use fbc_kinds::Rule;

/// How many page inventories a file has at most.
const MOST_INVENTORIES: u32 = 64;

/// What the search for a free page comes to.
#[derive(Clone, Copy, Debug, PartialEq, Eq)]
pub enum Found {
    /// This page is free.
    Page { page: u32 },
    /// This page is to be got first.
    Miss(Need),
    /// None of the pages below the limit is free.
    Limit { pages: u32 },
    /// The header does not count the page inventory of this sequence.
    Uncounted { sequence: u32 },
    /// The page breaks the rule.
    Damaged { page: u32, rule: Rule },
}

/// How far a search for a free page has come.
#[derive(Clone, Copy, Debug, PartialEq, Eq)]
pub struct FreeSearch {
    /// The sequence of the page inventory that is looked at next.
    pub sequence: u32,
    /// Whether the header was seen to count it.
    pub is_counted: bool,
}

impl FreeSearch {
    /// The search begins at the first page inventory.
    pub fn new() -> Self
        ensures { result ≡ record { sequence = 0; is_counted = false } }
    {
        FreeSearch {
            sequence: 0,
            is_counted: false,
        }
    }
}

/// Searches for a free page below the limit, from where the search stands: in each page inventory in turn, which the header
/// counts, the least one that is not passed over; the least of all where every free page of it is passed over. Where a page
/// is missing, it stands there, and goes on when it is called again.
pub fn find_free(search: &mut FreeSearch, desk: &mut Desk, limit: u32, passed: &Passed) -> Found
    ensures past { GoesPast desk.old limit search.old search.new }
    ensures found { StopsAt desk.old limit passed.now search.new result }
    ensures full { (sequence : ℕ) → search.old.sequence ≤ sequence → sequence < search.new.sequence → IsFull desk.old limit sequence }
    ensures same { IsOnlyUsed desk.old desk.new }
    ensures goes { GoesOn desk.old desk.new }
{
    while !is_over(desk, limit, search.sequence) {
        if let Some(found) = step(search, desk, limit, passed) {
            return found;
        }
    }
    Found::Limit { pages: limit }
}

/// Whether the search ends before this sequence.
fn is_over(desk: &Desk, limit: u32, sequence: u32) -> bool
    ensures { result ≡ is_over desk.now.cache.shape.size limit sequence }
{
    desk.holds();
    sequence >= MOST_INVENTORIES || sequence * desk.inventory_bits() >= limit
}

/// Looks at the next page: what stops the search, or none where it goes on.
fn step(search: &mut FreeSearch, desk: &mut Desk, limit: u32, passed: &Passed) -> Option<Found>
    requires within { is_over desk.old.cache.shape.size limit search.old.sequence ≡ false }
    ensures step { Steps desk.old limit passed.now search.old search.new result }
    ensures same { IsOnlyUsed desk.old desk.new }
    ensures goes { GoesOn desk.old desk.new }
{
    if search.sequence != 0 && !search.is_counted {
        step_past_header(search, desk)
    } else {
        step_past_inventory(search, desk, limit, passed)
    }
}

/// Looks at the header, whether it counts the page inventory.
fn step_past_header(search: &mut FreeSearch, desk: &mut Desk) -> Option<Found>
    ensures step { StepsPastHeader desk.old search.old search.new result }
    ensures same { IsOnlyUsed desk.old desk.new }
    ensures goes { GoesOn desk.old desk.new }
{
    match look_at_header(desk) {
        Held::Here => {
            if desk.cache().inventories() as u32 <= search.sequence {
                return Some(Found::Uncounted {
                    sequence: search.sequence,
                });
            }
            search.is_counted = true;
            None
        }
        Held::Miss(need) => Some(Found::Miss(need)),
        Held::Damaged { page, rule } => Some(Found::Damaged { page, rule }),
    }
}

/// Looks at the page inventory, whether it shows a free page.
fn step_past_inventory(
    search: &mut FreeSearch,
    desk: &mut Desk,
    limit: u32,
    passed: &Passed,
) -> Option<Found>
    requires within { is_over desk.old.cache.shape.size limit search.old.sequence ≡ false }
    ensures step { StepsPastInventory desk.old limit passed.now search.old search.new result }
    ensures same { IsOnlyUsed desk.old desk.new }
    ensures goes { GoesOn desk.old desk.new }
{
    match look_at_inventory(desk, search.sequence) {
        Held::Here => {
            if let Some(page) = choose(desk, limit, passed, search.sequence) {
                return Some(Found::Page { page });
            }
            search.sequence += 1;
            search.is_counted = false;
            None
        }
        Held::Miss(need) => Some(Found::Miss(need)),
        Held::Damaged { page, rule } => Some(Found::Damaged { page, rule }),
    }
}
