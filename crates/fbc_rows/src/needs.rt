//! How pages are wanted.

ghost use Rattle.std.specs.Prelude.{◌≡◌, ℕ, true};
ghost use Rattle.fbc_cache.specs.Readers.{place};
ghost use Rattle.fbc_desk.specs.Calls.{GoesOn};
ghost use Rattle.fbc_desk.specs.Holds.{Holds, HoldsAs, after_hold};
ghost use Rattle.fbc_desk.specs.Waits.{may_wait_for};
ghost use Rattle.fbc_chains.specs.Pages.{LooksAt, to_read};
ghost use Rattle.fbc_chains.specs.Showing.{shown_by};
ghost use Rattle.fbc_rows.specs.Damages.{HeldDamages};
ghost use Rattle.fbc_rows.specs.Inserting.{IsUnused};
ghost use Rattle.fbc_rows.specs.Missing.{HeldMisses};
ghost use Rattle.fbc_rows.specs.Needs.{pointer_at, pointer_place, to_change, to_get};

use fbc_cache::{Need, Place};
use fbc_desk::{Desk, Held};
use fbc_levels::Level;

/// A page is read, and waited for.
fn to_read(page: u32) -> Need
    ensures { result ≡ to_read page true }
{
    Need {
        page,
        level: Level::Pr,
        wait: true,
        fresh: false,
    }
}

/// A page is changed.
fn to_change(page: u32, wait: bool) -> Need
    ensures { result ≡ to_change page wait }
{
    Need {
        page,
        level: Level::Ex,
        wait,
        fresh: false,
    }
}

/// A free page is got to be formatted, and waited for.
pub(crate) fn to_get(page: u32) -> Need
    ensures { result ≡ to_get page }
{
    Need {
        page,
        level: Level::Ex,
        wait: true,
        fresh: true,
    }
}

/// A pointer page of the relation.
fn pointer_place(relation: u8, pointer: u32) -> Place
    ensures { result ≡ pointer_place relation pointer }
{
    Place {
        kind: 4,
        relation,
        sequence: pointer,
    }
}

/// The relation's pointer page of the sequence, 0 where it is not known.
pub(crate) fn pointer_at(desk: &Desk, relation: u8, pointer: u32) -> u32
    ensures { result ≡ pointer_at (shown_by desk.now.cache) relation pointer }
{
    desk.cache().pointer_page(relation, pointer)
}

/// Looks at a page of this kind and place.
fn look_at(desk: &mut Desk, page: u32, due: Place) -> Held
    ensures held { LooksAt (shown_by desk.old.cache) page due result }
    ensures same { shown_by desk.new.cache ≡ shown_by desk.old.cache }
    ensures misses { HeldMisses desk.new result }
    ensures goes { GoesOn desk.old desk.new }
{
    desk.holds();
    desk.look_as(to_read(page), due)
}

/// Looks at the header.
pub(crate) fn look_at_header(desk: &mut Desk) -> Held
    ensures held { LooksAt (shown_by desk.old.cache) 0 (place 1 0 0) result }
    ensures same { shown_by desk.new.cache ≡ shown_by desk.old.cache }
    ensures misses { HeldMisses desk.new result }
    ensures damages { (relation : ℕ) → HeldDamages desk.new relation result }
    ensures goes { GoesOn desk.old desk.new }
{
    let header = Place {
        kind: 1,
        relation: 0,
        sequence: 0,
    };
    look_at(desk, 0, header)
}

/// Looks at the relation's pointer page of the sequence.
pub(crate) fn look_at_pointer(desk: &mut Desk, relation: u8, pointer: u32) -> Held
    ensures held { LooksAt (shown_by desk.old.cache) (pointer_at (shown_by desk.old.cache) relation pointer) (pointer_place relation pointer) result }
    ensures same { shown_by desk.new.cache ≡ shown_by desk.old.cache }
    ensures misses { HeldMisses desk.new result }
    ensures damages { HeldDamages desk.new relation result }
    ensures goes { GoesOn desk.old desk.new }
{
    let page = pointer_at(desk, relation, pointer);
    look_at(desk, page, pointer_place(relation, pointer))
}

/// Uses the relation's pointer page of the sequence, to change it.
pub(crate) fn hold_pointer(desk: &mut Desk, relation: u8, pointer: u32) -> Held
    ensures held { HoldsAs desk.old (to_change (pointer_at (shown_by desk.old.cache) relation pointer) true) (pointer_place relation pointer) result }
    ensures after { desk.new ≡ after_hold desk.old (to_change (pointer_at (shown_by desk.old.cache) relation pointer) true) result }
    ensures same { shown_by desk.new.cache ≡ shown_by desk.old.cache }
    ensures misses { HeldMisses desk.new result }
    ensures damages { HeldDamages desk.new relation result }
    ensures goes { GoesOn desk.old desk.new }
{
    let page = pointer_at(desk, relation, pointer);
    desk.hold_as(to_change(page, true), pointer_place(relation, pointer))
}

/// Uses a data page, to change it. It is waited for where it may be so.
pub(crate) fn hold_data(desk: &mut Desk, page: u32) -> Held
    ensures held { Holds desk.old (to_change page (may_wait_for desk.old page)) result }
    ensures after { desk.new ≡ after_hold desk.old (to_change page (may_wait_for desk.old page)) result }
    ensures same { shown_by desk.new.cache ≡ shown_by desk.old.cache }
    ensures misses { HeldMisses desk.new result }
    ensures damages { (relation : ℕ) → HeldDamages desk.new relation result }
    ensures goes { GoesOn desk.old desk.new }
{
    let wait = desk.may_wait_for(page);
    desk.hold(to_change(page, wait))
}

/// No page is in use any more.
pub(crate) fn leave_all(desk: &mut Desk)
    ensures unused { IsUnused desk.new }
    ensures same { shown_by desk.new.cache ≡ shown_by desk.old.cache }
    ensures goes { GoesOn desk.old desk.new }
{
    desk.unpin_all();
}
