//! The open transaction.

ghost use Rattle.std.specs.Prelude.{◌≡◌, Some, None, false};

use crate::desk::Desk;
use crate::own::Own;
use fbc_kinds::Snapshot;

impl Desk {
    /// A transaction begins with this snapshot, when its number was granted.
    pub fn begun(&mut self, snapshot: Snapshot)
        ensures { self.new ≡ record self.old { own = Some (record { snapshot = snapshot; is_raised = false; is_sealed = false }) } }
    {
        self.own = Some(Own {
            snapshot,
            is_raised: false,
            is_sealed: false,
        });
    }

    /// The transaction is over, when its last page was written.
    pub fn ended(&mut self)
        ensures { self.new ≡ record self.old { own = None } }
    {
        self.own = None;
    }
}
