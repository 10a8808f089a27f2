//! The readers.

ghost use Rattle.std.specs.Prelude.{◌≡◌, ◌↔◌, IsTrue};
ghost use Rattle.fbc_world.specs.History.{recorded};
ghost use Rattle.fbc_world.specs.PageCell.{blank_file, draft_owner};
ghost use Rattle.fbc_world.specs.WriteOrder.{IsPair};

use crate::{pairs, sketches};
use fbc_world::Journal;

/// The owner of the page's draft, if there is one, replayed over a file of blank pages. An edit that does not
/// fit changes nothing, and a failed write counts as not landed.
pub fn draft_owner(journal: &Journal, page: u32) -> Option<u32>
    ensures { result ≡ draft_owner journal.now.shape blank_file (recorded journal.now) page }
{
    sketches::draft_owner(journal.shape(), page, journal.events())
}

/// Whether some owner has recorded that the page `high` is written before `low`, and that stands.
pub fn before(journal: &Journal, high: u32, low: u32) -> bool
    ensures { IsTrue result ↔ IsPair (recorded journal.now) high low }
{
    pairs::is_pair(high, low, journal.events())
}
