//! How pages are wanted, and where page inventories stand.

ghost use Rattle.std.specs.Prelude.{◌≡◌, ◌<◌, ◌*◌, ◌/◌, ◌^◌};
ghost use Rattle.fbc_kinds.specs.Limits.{inventory_bits};
ghost use Rattle.fbc_kinds.specs.View.{inventory_page};
ghost use Rattle.fbc_cache.specs.Readers.{place};
ghost use Rattle.fbc_desk.specs.Calls.{GoesOn};
ghost use Rattle.fbc_desk.specs.Holds.{after_hold, after_looking};
ghost use Rattle.fbc_space.specs.Finding.{IsOnlyUsed};
ghost use Rattle.fbc_space.specs.Needs.{HeaderComesTo, InventoryComesTo, to_change, to_format, to_read};

use fbc_cache::{Need, Place};
use fbc_desk::{Desk, Held};
use fbc_levels::Level;

/// A page is read, and waited for.
fn to_read(page: u32) -> Need
    ensures { result ≡ to_read page }
{
    Need {
        page,
        level: Level::Pr,
        wait: true,
        fresh: false,
    }
}

/// A page is changed, and waited for.
fn to_change(page: u32) -> Need
    ensures { result ≡ to_change page }
{
    Need {
        page,
        level: Level::Ex,
        wait: true,
        fresh: false,
    }
}

/// A free page is formatted, and not waited for.
pub(crate) fn to_format(page: u32) -> Need
    ensures { result ≡ to_format page }
{
    Need {
        page,
        level: Level::Ex,
        wait: false,
        fresh: true,
    }
}

/// Where the page inventory of a sequence stands.
pub(crate) fn inventory_page(desk: &Desk, sequence: u32) -> u32
    requires { sequence * inventory_bits desk.now.cache.shape.size < 2 ^ 32 }
    ensures { result ≡ inventory_page desk.now.cache.shape.size sequence }
{
    if sequence == 0 {
        1
    } else {
        sequence * desk.inventory_bits()
    }
}

/// A page inventory of a sequence.
fn inventory_place(sequence: u32) -> Place
    ensures { result ≡ place 2 0 sequence }
{
    Place {
        kind: 2,
        relation: 0,
        sequence,
    }
}

/// Looks at the header.
pub(crate) fn look_at_header(desk: &mut Desk) -> Held
    ensures held { HeaderComesTo desk.old result }
    ensures after { desk.new ≡ after_looking desk.old (to_read 0) result }
    ensures same { IsOnlyUsed desk.old desk.new }
    ensures goes { GoesOn desk.old desk.new }
{
    let header = Place {
        kind: 1,
        relation: 0,
        sequence: 0,
    };
    desk.look_as(to_read(0), header)
}

/// Looks at the page inventory of a sequence.
pub(crate) fn look_at_inventory(desk: &mut Desk, sequence: u32) -> Held
    requires { sequence * inventory_bits desk.old.cache.shape.size < 2 ^ 32 }
    ensures held { InventoryComesTo desk.old sequence result }
    ensures after { desk.new ≡ after_looking desk.old (to_change (inventory_page desk.old.cache.shape.size sequence)) result }
    ensures same { IsOnlyUsed desk.old desk.new }
    ensures goes { GoesOn desk.old desk.new }
{
    let page = inventory_page(desk, sequence);
    desk.look_as(to_change(page), inventory_place(sequence))
}

/// Holds the page inventory of a sequence.
pub(crate) fn hold_inventory(desk: &mut Desk, sequence: u32) -> Held
    requires { sequence * inventory_bits desk.old.cache.shape.size < 2 ^ 32 }
    ensures held { InventoryComesTo desk.old sequence result }
    ensures after { desk.new ≡ after_hold desk.old (to_change (inventory_page desk.old.cache.shape.size sequence)) result }
    ensures goes { GoesOn desk.old desk.new }
{
    let page = inventory_page(desk, sequence);
    desk.hold_as(to_change(page), inventory_place(sequence))
}
