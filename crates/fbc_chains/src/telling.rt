//! What a version tells of its row.

ghost use Rattle.std.specs.Prelude.{◌≡◌};
ghost use Rattle.fbc_kinds.specs.Chain.{holds, value_of};
ghost use Rattle.fbc_kinds.specs.View.{is_top};
ghost use Rattle.fbc_cache.specs.Readers.{cell_shown};
ghost use Rattle.fbc_chains.specs.Showing.{shown_by};
ghost use Rattle.fbc_chains.specs.Versions.{Tells, is_older};

use fbc_cache::Cache;
use fbc_kinds::{Flag, Snapshot, Value};
use fbc_tip::holds;

/// What a version tells.
#[derive(Clone, Copy, Debug, PartialEq, Eq)]
pub(crate) enum Told {
    /// This value is seen of the row, or nothing.
    Sees(Option<Value>),
    /// The version before it tells.
    LeadsOn,
}

/// What the version in the cell tells: it is seen; or it is not, and the chain of versions ends; or leads on.
pub(crate) fn tell(cache: &Cache, snapshot: &Snapshot, page: u32, cell: u16) -> Told
    ensures { Tells (holds snapshot.now) (cell_shown cache.now page cell) result }
{
    if holds(snapshot, cache.number(page, cell)) {
        return Told::Sees(value_of(cache, page, cell));
    }
    if cache.back_page(page, cell) == 0 {
        return Told::Sees(None);
    }
    Told::LeadsOn
}

/// The value of the version in the cell, none where it is a deletion.
fn value_of(cache: &Cache, page: u32, cell: u16) -> Option<Value>
    ensures { result ≡ value_of (cell_shown cache.now page cell).flag (cell_shown cache.now page cell).value }
{
    match cache.flag(page, cell) {
        Flag::Deletion => None,
        _ => Some(cache.value_of(page, cell)),
    }
}

/// Whether the version in the cell is a row's newest.
pub(crate) fn is_top(cache: &Cache, page: u32, cell: u16) -> bool
    ensures { result ≡ is_top (cell_shown cache.now page cell).flag }
{
    matches!(cache.flag(page, cell), Flag::Primary | Flag::Deletion)
}

/// Whether the version in the cell leads to an older one of the relation, of a lower number.
pub(crate) fn leads_to_older(cache: &Cache, relation: u8, page: u32, cell: u16) -> bool
    ensures { result ≡ is_older (shown_by cache.now) relation page cell }
{
    let below = cache.back_page(page, cell);
    let place = cache.place(below);
    let older = cache.back_cell(page, cell);
    place.kind == 5
        && place.relation == relation
        && matches!(cache.flag(below, older), Flag::Back)
        && cache.number(below, older) < cache.number(page, cell)
}
