//! The search for all pages that are to be written before a page.

ghost use Rattle.std.specs.Prelude.{◌≡◌, ◌↔◌, ◌≢◌, ◌≤◌, ℕ, true, IsTrue, length, MatchOption};
ghost use Rattle.fbc_precedence.specs.Pages as pages_spec;
ghost use Rattle.fbc_precedence.specs.Pages.{has};
ghost use Rattle.fbc_precedence.specs.Precedence.{ComesBefore, IsAtOrBefore, IsBlocked, IsNextToWrite};
ghost use Rattle.fbc_precedence.specs.Search as spec;

use crate::pages::Pages;
use fbc_kinds::Edge;

/// Whether pairs lead from the high page to the low one.
pub fn stands_before(pairs: &[Edge], high: u32, low: u32) -> bool
    requires room { length (pages_spec.pages_of pairs.now) ≤ 512 }
    requires differ { high ≢ low }
    ensures { IsTrue result ↔ ComesBefore pairs.now high low }
{
    let pages = at_or_before(pairs, low);
    pages.as_slice().contains(&high)
}

/// The page and all pages that stand before it.
fn at_or_before(pairs: &[Edge], page: u32) -> Pages
    requires { length (pages_spec.pages_of pairs.now) ≤ 512 }
    ensures { (other : ℕ) → (has result.items other ≡ true) ↔ IsAtOrBefore pairs.now other page }
{
    let mut found = Pages::new();
    found.push(page);
    while let Some(high) = directly_before(pairs, found.as_slice()) {
        found.push(high);
    }
    found
}

/// A page that a pair names before one of these pages, and that is none of them.
fn directly_before(pairs: &[Edge], found: &[u32]) -> Option<u32>
    ensures { MatchOption result (spec.IsClosed pairs.now found.now) (spec.LeadsInto pairs.now found.now) }
{
    for pair in pairs {
        if leads_into(found, pair) {
            return Some(pair.high);
        }
    }
    None
}

/// Whether the low page is one of these and the high page is none of them.
fn leads_into(found: &[u32], pair: &Edge) -> bool
    ensures { result ≡ spec.leads_into found.now pair.now }
{
    found.contains(&pair.low) && !found.contains(&pair.high)
}

/// The least page without a page before it, among this page and those that stand before it.
pub fn next_to_write(pairs: &[Edge], page: u32) -> u32
    requires room { length (pages_spec.pages_of pairs.now) ≤ 512 }
    requires acyclic { (other : ℕ) → ComesBefore pairs.now other other → ⊥ }
    ensures { IsNextToWrite pairs.now page result }
{
    let found = at_or_before(pairs, page);
    least_free(pairs, found.as_slice()).unwrap_or(page)
}

/// Whether some page stands before this one.
pub fn blocked(pairs: &[Edge], page: u32) -> bool
    ensures { IsTrue result ↔ IsBlocked pairs.now page }
{
    is_blocked(pairs, page)
}

/// Whether a pair names a page before this one.
fn is_blocked(pairs: &[Edge], page: u32) -> bool
    ensures { result ≡ spec.is_blocked pairs.now page }
{
    pairs.iter().any(|pair| pair.low == page)
}

/// The least of these pages that no pair names another before.
fn least_free(pairs: &[Edge], found: &[u32]) -> Option<u32>
    ensures { MatchOption result (spec.AllBlocked pairs.now found.now) (spec.IsLeastFree pairs.now found.now) }
{
    let mut least = None;
    for page in found {
        if !is_blocked(pairs, *page) {
            least = Some(lesser(least, *page));
        }
    }
    least
}

/// The lesser of the two, or the page where there is no other.
pub fn lesser(least: Option<u32>, page: u32) -> u32
    ensures { result ≡ spec.lesser least page }
{
    match least {
        Some(least) => least.min(page),
        None => page,
    }
}
