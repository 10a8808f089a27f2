//! The header and the transaction inventory pages, as a begin and a commit need them.

ghost use Rattle.std.specs.Prelude.{◌≡◌};
ghost use Rattle.fbc_cache.specs.Readers.{place};
ghost use Rattle.fbc_desk.specs.Calls.{GoesOn};
ghost use Rattle.fbc_desk.specs.Holds.{after_hold, after_looking};
ghost use Rattle.fbc_tip.specs.Inventories.{reading};
ghost use Rattle.fbc_tra.specs.Pages.{HoldsHeader, HoldsTip, LooksAtHeader, to_change};

use fbc_cache::{Need, Place};
use fbc_desk::{Desk, Held};
use fbc_levels::Level;

/// Where the header stands.
fn header_place() -> Place
    ensures { result ≡ place 1 0 0 }
{
    Place {
        kind: 1,
        relation: 0,
        sequence: 0,
    }
}

/// Where the transaction inventory page of a sequence stands.
fn tip_place(sequence: u32) -> Place
    ensures { result ≡ place 3 0 sequence }
{
    Place {
        kind: 3,
        relation: 0,
        sequence,
    }
}

/// A page is read, and waited for.
fn to_read(page: u32) -> Need
    ensures { result ≡ reading page }
{
    Need {
        page,
        level: Level::Pr,
        wait: true,
        fresh: false,
    }
}

/// A page is changed, and waited for.
fn to_change(page: u32) -> Need
    ensures { result ≡ to_change page }
{
    Need {
        page,
        level: Level::Ex,
        wait: true,
        fresh: false,
    }
}

/// Holds the header, to change it.
pub(crate) fn hold_header(desk: &mut Desk) -> Held
    ensures held { HoldsHeader desk.old result }
    ensures after { desk.new ≡ after_hold desk.old (to_change 0) result }
    ensures goes { GoesOn desk.old desk.new }
{
    desk.hold_as(to_change(0), header_place())
}

/// Looks at the header.
pub(crate) fn look_at_header(desk: &mut Desk) -> Held
    ensures held { LooksAtHeader desk.old result }
    ensures after { desk.new ≡ after_looking desk.old (reading 0) result }
    ensures goes { GoesOn desk.old desk.new }
{
    desk.look_as(to_read(0), header_place())
}

/// Holds the transaction inventory page of a sequence, to change it.
pub(crate) fn hold_tip(desk: &mut Desk, page: u32, sequence: u32) -> Held
    ensures held { HoldsTip desk.old page sequence result }
    ensures after { desk.new ≡ after_hold desk.old (to_change page) result }
    ensures goes { GoesOn desk.old desk.new }
{
    desk.hold_as(to_change(page), tip_place(sequence))
}
