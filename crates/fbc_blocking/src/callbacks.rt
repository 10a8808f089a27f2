//! The callbacks of one owner.

ghost use Rattle.std.specs.Prelude.{◌≡◌, min, MatchOption};
ghost use Rattle.std.specs.List.{find, list_all};
ghost use Rattle.std.specs.Option.{option_map_or};
ghost use Rattle.fbc_levels.specs.Levels.{is_compatible, highest_beside};
ghost use Rattle.fbc_blocking.specs.Callbacks as spec;

use fbc_levels::{Callback, Level, Request, Resource, Series, compatible};
use fbc_lock_table::LockTable;

/// The first living owner in the order of asking that waits for the page in a level which
/// conflicts with what this owner is granted there; none where there is no such owner.
pub fn blocked_by(table: &LockTable, owner: u32, page: u32) -> Option<u32>
    ensures { result ≡ spec.blocked_by table.now owner page }
{
    let request = kept_out(table, owner, page)?;
    Some(request.owner)
}

/// The callback for the least page past `above` on which the owner keeps a waiting owner out. It
/// names the first owner that waits so, and the highest of none, PR and EX that goes beside all
/// that living owners wait for there. None where the owner keeps nobody out of such a page.
pub fn next_callback(table: &LockTable, owner: u32, above: Option<u32>) -> Option<Callback>
    ensures { MatchOption result (spec.KeepsNobodyOut table.now owner above) (spec.IsNextCallback table.now owner above) }
{
    if table.waiters() == 0 {
        return None;
    }
    let page = next_page(table, owner, above)?;
    let asker = blocked_by(table, owner, page)?;
    Some(Callback {
        page,
        keep: keep_on(table, owner, page),
        asker,
    })
}

/// The first request of another living owner that waits for the page against what this one is
/// granted there.
fn kept_out(table: &LockTable, owner: u32, page: u32) -> Option<Request>
    ensures { result ≡ spec.kept_out table.now owner page }
{
    let held = table.granted(owner, page_of(page));
    first_kept_out(table, owner, page, held)
}

/// The first request of another living owner that waits for the page against this level.
fn first_kept_out(table: &LockTable, owner: u32, page: u32, held: Level) -> Option<Request>
    ensures { result ≡ find (spec.is_kept_out owner page held) table.now.requests }
{
    for k in 0..table.used() {
        let request = table.request(k);
        if is_kept_out(&request, owner, page, held) {
            return Some(request);
        }
    }
    None
}

/// The page of this number.
fn page_of(page: u32) -> Resource
    ensures { result ≡ spec.page_of page }
{
    Resource {
        series: Series::Page,
        key: page,
    }
}

/// Whether it is a request of another owner, who lives, for this page.
fn is_of_other(request: &Request, owner: u32, page: u32) -> bool
    ensures { result ≡ spec.is_of_other owner page request.now }
{
    request.resource.is_same(page_of(page)) && request.owner != owner && request.alive
}

/// Whether it waits for a level that conflicts with this one.
fn is_against(request: &Request, held: Level) -> bool
    ensures { result ≡ spec.is_against held request.now }
{
    match request.waiting {
        Some(wanted) => !compatible(wanted, held),
        None => false,
    }
}

/// Whether it is a request of another living owner that waits for this page against this level.
fn is_kept_out(request: &Request, owner: u32, page: u32, held: Level) -> bool
    ensures { result ≡ spec.is_kept_out owner page held request.now }
{
    is_of_other(request, owner, page) && is_against(request, held)
}

/// The highest of none, PR and EX that goes beside what other living owners wait for on the page.
fn keep_on(table: &LockTable, owner: u32, page: u32) -> Level
    ensures { result ≡ highest_beside (spec.wanted_levels table.now owner page) }
{
    if goes_beside(table, owner, page, Level::Ex) {
        Level::Ex
    } else if goes_beside(table, owner, page, Level::Pr) {
        Level::Pr
    } else {
        Level::Free
    }
}

/// Whether the level goes beside what other living owners wait for on the page.
fn goes_beside(table: &LockTable, owner: u32, page: u32, level: Level) -> bool
    ensures { result ≡ list_all (is_compatible level) (spec.wanted_levels table.now owner page) }
{
    for k in 0..table.used() {
        let request = table.request(k);
        if !leaves_room(&request, owner, page, level) {
            return false;
        }
    }
    true
}

/// Whether the level goes beside what the request waits for on this page, if another living owner
/// waits by it.
fn leaves_room(request: &Request, owner: u32, page: u32, level: Level) -> bool
    ensures { result ≡ spec.leaves_room owner page level request.now }
{
    match wanted_by(request, owner, page) {
        Some(wanted) => compatible(level, wanted),
        None => true,
    }
}

/// What the request waits for, if it is another living owner's for this page.
fn wanted_by(request: &Request, owner: u32, page: u32) -> Option<Level>
    ensures { result ≡ spec.wanted_by owner page request.now }
{
    if is_of_other(request, owner, page) {
        request.waiting
    } else {
        None
    }
}

/// The least page past `above` on which the owner keeps a waiting owner out.
fn next_page(table: &LockTable, owner: u32, above: Option<u32>) -> Option<u32>
    ensures { MatchOption result (spec.KeepsNobodyOut table.now owner above) (spec.IsNextPage table.now owner above) }
{
    let mut least = None;
    for k in 0..table.used() {
        let request = table.request(k);
        least = with_called(table, &request, owner, above, least);
    }
    least
}

/// The least page so far, with that of the request if it is called for.
fn with_called(
    table: &LockTable,
    request: &Request,
    owner: u32,
    above: Option<u32>,
    least: Option<u32>,
) -> Option<u32>
    ensures { result ≡ spec.with_called table.now owner above least request.now }
{
    if is_called(table, request, owner, above) {
        Some(lesser(least, request.resource.key))
    } else {
        least
    }
}

/// Whether it waits for a page past `above` against what the owner is granted there.
fn is_called(table: &LockTable, request: &Request, owner: u32, above: Option<u32>) -> bool
    ensures { result ≡ spec.is_called table.now owner above request.now }
{
    request.waiting.is_some()
        && request.resource.series.is_same(Series::Page)
        && is_past(above, request.resource.key)
        && is_kept_out(
            request,
            owner,
            request.resource.key,
            table.granted(owner, request.resource),
        )
}

/// Whether the page comes after this one, if one is named.
fn is_past(above: Option<u32>, page: u32) -> bool
    ensures { result ≡ spec.is_past above page }
{
    match above {
        Some(above) => above < page,
        None => true,
    }
}

/// The lesser of the two, or the second where there is no first.
fn lesser(least: Option<u32>, page: u32) -> u32
    ensures { result ≡ option_map_or (λ least. min least page) least page }
{
    match least {
        Some(least) => least.min(page),
        None => page,
    }
}
