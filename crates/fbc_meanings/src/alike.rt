//! Views that read alike. None of these functions does anything.

ghost use Rattle.fbc_kinds.specs.Machine.{Machine};
ghost use Rattle.fbc_kinds.specs.Meaning.{meaning_with};
ghost use Rattle.fbc_kinds.specs.Sound.{IsSound};
ghost use Rattle.fbc_kinds.specs.View.{View, next_of};
ghost use Rattle.fbc_kinds.specs.declared.snapshots.Transaction.{Transaction};
ghost use Rattle.fbc_runs.specs.Reading.{ReadsAs};
ghost use Rattle.fbc_page_edits.specs.Alike.{ReadAlike};
ghost use Rattle.std.specs.Prelude.{◌≤◌, All, List};

/// Of views that read alike the later one's meaning reads as whatever the earlier one's does.
pub fn reads_alike()
    ensures { (living : List Transaction) (before after : View) (m : Machine) → ReadAlike before after
        → IsSound before → next_of before ≤ next_of after
        → All (λ (t : Transaction). t.number ≤ next_of before) living
        → ReadsAs (meaning_with living before) m → ReadsAs (meaning_with living after) m }
{}
