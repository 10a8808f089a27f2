//! Sets of pages, and the pages that stand in pairs.

ghost use Rattle.std.specs.Prelude.{◌≡◌, ◌<◌, ◌≤◌, [], ◌∷◌, ◌++◌, length, vec_len, vec_capacity};
ghost use Rattle.std.specs.List.{filter};
ghost use Rattle.fbc_precedence.specs.Pages as spec;
ghost use Rattle.fbc_precedence.specs.Precedence as order;

use arrayvec::ArrayVec;
use fbc_kinds::Edge;

/// The most pages that stand in a graph.
pub const MOST_PAGES: u32 = 512;

/// A set of pages: those of a graph, and two more.
pub type Pages = ArrayVec<u32, 514>;

/// The pages that stand in these pairs, each once.
pub fn pages_of(pairs: &[Edge]) -> Pages
    requires { length (spec.pages_of pairs.now) ≤ 512 }
    ensures { result.items ≡ spec.pages_of pairs.now }
{
    let mut pages = Pages::new();
    for pair in pairs {
        add_pages(&mut pages, pair.high, pair.low);
    }
    pages
}

/// Puts both pages into the set.
pub fn add_pages(pages: &mut Pages, high: u32, low: u32)
    requires { length pages.old.items ≤ 512 }
    ensures { pages.new.items ≡ spec.with_page (spec.with_page pages.old.items high) low }
{
    add_page(pages, high);
    add_page(pages, low);
}

/// Puts the page into the set.
fn add_page(pages: &mut Pages, page: u32)
    requires { length pages.old.items ≤ 513 }
    ensures { pages.new.items ≡ spec.with_page pages.old.items page }
{
    if !pages.as_slice().contains(&page) {
        pages.push(page);
    }
}

/// Adds the pair behind the others.
pub fn add_pair(pairs: &mut Vec<Edge>, high: u32, low: u32)
    requires { vec_len pairs.old < vec_capacity pairs.old }
    ensures items { pairs.new.items ≡ pairs.old.items ++ order.pair_of high low ∷ [] }
    ensures capacity { vec_capacity pairs.old ≤ vec_capacity pairs.new }
{
    pairs.push(Edge { high, low }).unwrap();
}

/// Removes the pairs in which the page stands.
pub fn remove_page(pairs: &mut Vec<Edge>, page: u32)
    ensures items { pairs.new.items ≡ filter (order.is_without page) pairs.old.items }
    ensures capacity { vec_capacity pairs.new ≡ vec_capacity pairs.old }
{
    pairs.retain(|pair| is_without(pair, page));
}

/// Whether the page does not stand in the pair.
fn is_without(pair: &Edge, page: u32) -> bool
    ensures { result ≡ order.is_without page pair.now }
{
    pair.high != page && pair.low != page
}
