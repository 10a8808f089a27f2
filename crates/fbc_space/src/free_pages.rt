//! Which free page a page inventory at hand offers.

ghost use Rattle.std.specs.Prelude.{◌≡◌, ◌<◌, ◌+◌, ◌*◌, false, Some, None};
ghost use Rattle.fbc_kinds.specs.Limits.{inventory_bits};
ghost use Rattle.fbc_kinds.specs.View.{inventory_page};
ghost use Rattle.fbc_cache.specs.Least.{IsLeast};
ghost use Rattle.fbc_space.specs.Finding.{Chooses, is_over};
ghost use Rattle.fbc_space.specs.FreePages.{is_free_within};

use crate::needs::inventory_page;
use crate::passed::Passed;
use fbc_cache::Cache;
use fbc_desk::Desk;

/// Of the free pages below the limit that the page inventory of the sequence covers, the least that is not passed over; the
/// least of all where every one is passed over; none where there is none.
pub(crate) fn choose(desk: &Desk, limit: u32, passed: &Passed, sequence: u32) -> Option<u32>
    requires within { is_over desk.now.cache.shape.size limit sequence ≡ false }
    ensures { Chooses desk.now.cache limit passed.now sequence result }
{
    desk.holds();
    let inventory = inventory_page(desk, sequence);
    let from = sequence * desk.inventory_bits();
    let end = limit.min(from + desk.inventory_bits());
    let least = match first_free(desk.cache(), inventory, from, end, &Passed::new()) {
        Some(page) => page,
        None => return None,
    };
    match first_free(desk.cache(), inventory, least, end, passed) {
        Some(page) => Some(page),
        None => Some(least),
    }
}

/// The first page from `from` on and before `end` that the page inventory shows as free, and that is not passed over.
fn first_free(cache: &Cache, inventory: u32, from: u32, end: u32, passed: &Passed) -> Option<u32>
    ensures { IsLeast (is_free_within cache.now inventory from end passed.now) result }
{
    for page in from..end {
        if !cache.taken(inventory, page) && !passed.contains(page) {
            return Some(page);
        }
    }
    None
}
