//! Pages that are to be read.

ghost use Rattle.std.specs.Prelude.{◌≡◌, ◌≢◌, ◌⊎◌, ℕ, true};
ghost use Rattle.fbc_desk.specs.declared.holding.Held.TheVariants as holds;
ghost use Rattle.fbc_desk.specs.Calls.{GoesOn, UnpinsIfPinned};
ghost use Rattle.fbc_desk.specs.Holds.{after_hold, after_looking};
ghost use Rattle.fbc_desk.specs.Waits.{may_wait_for};
ghost use Rattle.fbc_chains.specs.Pages.{HoldsToRead, LooksAt, to_read};
ghost use Rattle.fbc_chains.specs.Showing.{shown_by};
ghost use Rattle.fbc_chains.specs.Using.{IsUsed};
ghost use Rattle.fbc_chains.specs.Waiting.{MissesInTurn};

use fbc_cache::{Need, Place};
use fbc_desk::{Desk, Held};
use fbc_levels::Level;

/// A page is to be read.
fn to_read(page: u32, wait: bool) -> Need
    ensures { result ≡ to_read page wait }
{
    Need {
        page,
        level: Level::Pr,
        wait,
        fresh: false,
    }
}

/// A page of this kind and place is looked at, if it is there. It is waited for.
pub(crate) fn look_at(desk: &mut Desk, page: u32, due: Place) -> Held
    ensures held { LooksAt (shown_by desk.old.cache) page due result }
    ensures after { desk.new ≡ after_looking desk.old (to_read page true) result }
    ensures kept { (other : ℕ) → IsUsed desk.new other → IsUsed desk.old other }
    ensures same { shown_by desk.new.cache ≡ shown_by desk.old.cache }
    ensures goes { GoesOn desk.old desk.new }
{
    desk.holds();
    desk.look_as(to_read(page, true), due)
}

/// A data page is used, and stays in use, if it is there. It is waited for where it may be so.
pub(crate) fn hold_data(desk: &mut Desk, page: u32) -> Held
    ensures held { HoldsToRead (shown_by desk.old.cache) page result }
    ensures waits { MissesInTurn desk.new result }
    ensures after { desk.new ≡ after_hold desk.old (to_read page (may_wait_for desk.old page)) result }
    ensures used { result ≡ holds.Here → IsUsed desk.new page }
    ensures stays { (other : ℕ) → IsUsed desk.old other → IsUsed desk.new other }
    ensures more { (other : ℕ) → IsUsed desk.new other → IsUsed desk.old other ⊎ (other ≡ page) }
    ensures same { shown_by desk.new.cache ≡ shown_by desk.old.cache }
    ensures goes { GoesOn desk.old desk.new }
{
    desk.holds();
    let wait = desk.may_wait_for(page);
    desk.hold(to_read(page, wait))
}

/// A page is in use no more.
pub(crate) fn leave(desk: &mut Desk, page: u32)
    ensures unpins { UnpinsIfPinned desk.old page desk.new }
    ensures stays { (other : ℕ) → other ≢ page → IsUsed desk.old other → IsUsed desk.new other }
    ensures gone { (other : ℕ) → IsUsed desk.new other → IsUsed desk.old other × (other ≢ page) }
    ensures same { shown_by desk.new.cache ≡ shown_by desk.old.cache }
    ensures goes { GoesOn desk.old desk.new }
{
    desk.unpin(page);
}

/// A page is in use no more, unless it is the other one.
pub(crate) fn leave_for(desk: &mut Desk, page: u32, other: u32)
    ensures unpins { page ≢ other → UnpinsIfPinned desk.old page desk.new }
    ensures left { page ≡ other → desk.new ≡ desk.old }
    ensures stays { IsUsed desk.old other → IsUsed desk.new other }
    ensures gone { (used : ℕ) → IsUsed desk.new used → IsUsed desk.old used × (page ≢ other → used ≢ page) }
    ensures same { shown_by desk.new.cache ≡ shown_by desk.old.cache }
    ensures goes { GoesOn desk.old desk.new }
{
    if page != other {
        leave(desk, page);
    }
}
