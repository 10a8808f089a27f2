//! The use of a page that was found free.

ghost use Rattle.std.specs.Prelude.{◌≡◌};
ghost use Rattle.fbc_desk.specs.Calls.{GoesOn};
ghost use Rattle.fbc_desk.specs.Grounds.{inventory_over};
ghost use Rattle.fbc_space.specs.FreeSteps.{FreeComesTo, HoldsFree, after_free};

use crate::needs::{hold_inventory, inventory_page, to_format};
use fbc_cache::Need;
use fbc_desk::{Desk, Held};
use fbc_kinds::Rule;

/// What it comes to when a free page is to be used.
#[derive(Clone, Copy, Debug, PartialEq, Eq)]
pub enum FreeStep {
    /// It is in use, and so is the page inventory over it.
    Here,
    /// This page is to be got first.
    Miss(Need),
    /// It is not free any more.
    Gone,
    /// The page breaks the rule.
    Damaged { page: u32, rule: Rule },
}

/// Uses a page that was found free, to format it, and the page inventory over it, which tells whether it is free still. Both
/// stay in use. A page that is free and in use already is damaged.
pub fn hold_free(desk: &mut Desk, page: u32) -> FreeStep
    ensures held { HoldsFree desk.old page result desk.new }
    ensures goes { GoesOn desk.old desk.new }
{
    let sequence = page / desk.inventory_bits();
    match hold_inventory(desk, sequence) {
        Held::Here => hold_if_free(desk, page),
        Held::Miss(need) => FreeStep::Miss(need),
        Held::Damaged { page, rule } => FreeStep::Damaged { page, rule },
    }
}

/// Uses a page over which the page inventory is in use.
fn hold_if_free(desk: &mut Desk, page: u32) -> FreeStep
    ensures held { FreeComesTo desk.old page result }
    ensures after { desk.new ≡ after_free desk.old page result }
    ensures goes { GoesOn desk.old desk.new }
{
    if desk.cache().taken(inventory_over(desk, page), page) {
        return FreeStep::Gone;
    }
    if desk.cache().pinned(page) {
        return FreeStep::Damaged {
            page,
            rule: Rule::Taken,
        };
    }
    match desk.hold(to_format(page)) {
        Held::Here => FreeStep::Here,
        Held::Miss(need) => FreeStep::Miss(need),
        Held::Damaged { page, rule } => FreeStep::Damaged { page, rule },
    }
}

/// Where the page inventory stands that covers the page.
pub(crate) fn inventory_over(desk: &Desk, page: u32) -> u32
    ensures { result ≡ inventory_over desk.now.cache.shape.size page }
{
    inventory_page(desk, page / desk.inventory_bits())
}
