//! Which pages may be waited for beside those in use.

ghost use Rattle.std.specs.Prelude.{◌≡◌};
ghost use Rattle.fbc_desk.specs.Waits.{may_wait_for};

use crate::desk::Desk;

impl Desk {
    /// Whether a data page may be waited for: nothing is in use, or data pages with smaller numbers alone.
    pub fn may_wait_for(&self, page: u32) -> bool
        ensures { result ≡ may_wait_for self.now page }
    {
        self.cache.pins_are_below(page)
    }
}
