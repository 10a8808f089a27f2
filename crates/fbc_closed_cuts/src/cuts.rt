//! Cuts as lists of pages.

ghost use Rattle.std.specs.Prelude.{◌≡◌, ◌↔◌, IfOk, IsTrue, Some};
ghost use Rattle.fbc_closed_cuts.specs.Cut.{AreClosed, closes, is_listed, view};
ghost use Rattle.fbc_world.specs.World.{recorded_world};

use fbc_kinds::{Edge, Page};
use fbc_world::{Journal, worlds_are_replays};
use std::alloc::AllocError;

/// Whether for each edge whose low page is listed, the high one is.
pub fn is_closed(pages: &[u32], edges: &[Edge]) -> bool
    ensures { IsTrue result ↔ AreClosed pages.now edges.now }
{
    edges.iter().all(|edge| closes(pages, edge))
}

/// Whether the high page is listed if the low one is.
fn closes(pages: &[u32], edge: &Edge) -> bool
    ensures { result ≡ closes pages.now edge.now }
{
    !pages.contains(&edge.low) || pages.contains(&edge.high)
}

/// The page as it stands where the drafts of the listed pages are in the file, after what the
/// journal records over blank pages: the draft where the page is listed and drafted, and
/// otherwise what is kept.
pub fn view(journal: &Journal, cut: &[u32], page: u32) -> Result<Page, AllocError>
    ensures { IfOk result (λ content. view (recorded_world journal.now) (is_listed cut.now) page ≡ Some content) }
{
    worlds_are_replays();
    if cut.contains(&page) {
        journal.newest(page)
    } else {
        journal.kept(page)
    }
}
