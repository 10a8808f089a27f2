//! Owners of open transactions. None of these functions does anything.

ghost use Rattle.fbc_kinds.specs.Meaning.{meaning_with};
ghost use Rattle.fbc_kinds.specs.View.{View};
ghost use Rattle.fbc_kinds.specs.declared.snapshots.Transaction.{Transaction};
ghost use Rattle.fbc_version_edits.specs.Open.{AreOpen};
ghost use Rattle.fbc_runs.specs.Orderly.{OwnersDiffer};
ghost use Rattle.std.specs.Prelude.{List};

/// In what a view means no owner has two open transactions, where that is so of the open ones.
pub fn living_owners_differ()
    ensures { (living : List Transaction) (view : View) → AreOpen living → OwnersDiffer (meaning_with living view).transactions }
{}
