//! The rows of a relation that a transaction sees.

ghost use Rattle.std.specs.Prelude.{◌≡◌, IfOk, OnOk};
ghost use Rattle.fbc_kinds.specs.Chain.{see};
ghost use Rattle.fbc_kinds.specs.Machine.{IsScan, is_held, standing_versions};
ghost use Rattle.fbc_machine.specs.Scanned.{nearer};

use crate::machine::{Machine, Version};
use fbc_kinds::Value;
use std::alloc::AllocError;

impl Machine {
    ghost use Rattle.fbc_machine.specs.Shown.{shown};
    ghost use Rattle.fbc_machine.specs.Scanned.{IsNextRow, added};

    /// The least row number from `from` on that has a version in the relation.
    fn next_row(&self, relation: u8, from: u64) -> Option<u32>
        ensures { IsNextRow (shown self.now) relation from result }
    {
        let mut next = None;
        for version in &self.versions {
            next = nearer(version, relation, from, next);
        }
        next
    }

    /// Adds the row to `rows`, if a snapshot of these numbers sees a value there.
    fn add_row(
        &self,
        relation: u8,
        row: u32,
        snapshot: &[u32],
        rows: &mut Vec<(u32, Value)>,
    ) -> Result<(), AllocError>
        ensures { OnOk result (rows.new.items ≡ added (see (standing_versions (shown self.now) relation row) (is_held snapshot.now)) row rows.old.items) }
    {
        if let Some(value) = self.seen(relation, row, snapshot) {
            rows.push((row, value))?;
        }
        Ok(())
    }

    /// The rows of the relation that a snapshot of these numbers sees, in rising order.
    pub(crate) fn rows_seen(
        &self,
        relation: u8,
        snapshot: &[u32],
    ) -> Result<Vec<(u32, Value)>, AllocError>
        ensures { IfOk result (λ rows. IsScan (λ row. see (standing_versions (shown self.now) relation row) (is_held snapshot.now)) rows.items) }
    {
        let mut rows = Vec::new(self.allocator());
        let mut from = 0;
        while let Some(row) = self.next_row(relation, from) {
            self.add_row(relation, row, snapshot, &mut rows)?;
            from = u64::from(row) + 1;
        }
        Ok(rows)
    }
}

/// The lesser of the row number `next` and that of a version in the relation, if that is at least
/// `from`.
fn nearer(version: &Version, relation: u8, from: u64, next: Option<u32>) -> Option<u32>
    ensures { result ≡ nearer relation from next version.now }
{
    if version.relation != relation || u64::from(version.row) < from {
        return next;
    }
    match next {
        Some(least) if least <= version.row => next,
        _ => Some(version.row),
    }
}
