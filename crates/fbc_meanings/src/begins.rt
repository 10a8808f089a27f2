//! Transactions that begin. None of these functions does anything.

ghost use Rattle.fbc_kinds.specs.Meaning.{meaning_with};
ghost use Rattle.fbc_kinds.specs.Sound.{IsSound};
ghost use Rattle.fbc_kinds.specs.View.{View, next_of};
ghost use Rattle.fbc_kinds.specs.declared.shapes.Shape.{Shape};
ghost use Rattle.fbc_kinds.specs.declared.snapshots.Transaction.{Transaction};
ghost use Rattle.fbc_meanings.specs.Beside.{IsApart};
ghost use Rattle.fbc_version_edits.specs.Open.{AreOpen};
ghost use Rattle.fbc_runs.specs.Changes.{HasNoVersions};
ghost use Rattle.fbc_runs.specs.Reading.{Gains};
ghost use Rattle.fbc_page_edits.specs.Edited.{IsOfShape};
ghost use Rattle.std.specs.Prelude.{◌≡◌, ◌<◌, ◌∷◌, ℕ, List};

/// A view's meaning gains a transaction that begins with the next number, which no version has.
pub fn begun_views_gain()
    ensures gains { (shape : Shape) (view : View) (living : List Transaction) (t : Transaction)
        → IsOfShape shape view → IsSound view
        → AreOpen (t ∷ living) → IsApart living t → t.number ≡ next_of view → 0 < t.number
        → Gains (meaning_with living view) (meaning_with (t ∷ living) view) t.owner t }
    ensures unused { (shape : Shape) (view : View) (living : List Transaction) (number : ℕ)
        → IsOfShape shape view → IsSound view → number ≡ next_of view
        → HasNoVersions (meaning_with living view) number }
{}
