//! Numbers of transactions that get another state. None of these functions does anything.

ghost use Rattle.fbc_kinds.specs.Chain.{state_of};
ghost use Rattle.fbc_kinds.specs.Machine.{Machine, machine_step};
ghost use Rattle.fbc_kinds.specs.Meaning.{meaning_with};
ghost use Rattle.fbc_kinds.specs.Reach.{Reaches, TipRole};
ghost use Rattle.fbc_kinds.specs.View.{View, is_committed_state};
ghost use Rattle.fbc_kinds.specs.declared.commands.Command.TheVariants.{Commit};
ghost use Rattle.fbc_kinds.specs.declared.edits.Edit.TheVariants.{Mark};
ghost use Rattle.fbc_kinds.specs.declared.pages.Page.{Page};
ghost use Rattle.fbc_kinds.specs.declared.pages.State.TheVariants.{Committed};
ghost use Rattle.fbc_kinds.specs.declared.pages.State.{State};
ghost use Rattle.fbc_kinds.specs.declared.shapes.Shape.{Shape};
ghost use Rattle.fbc_kinds.specs.declared.snapshots.Transaction.{Transaction};
ghost use Rattle.fbc_meanings.specs.Beside.{IsApart};
ghost use Rattle.fbc_version_edits.specs.Forms.{IsAdmittedEdit};
ghost use Rattle.fbc_version_edits.specs.Open.{AreOpen};
ghost use Rattle.fbc_runs.specs.Orderly.{IsInFront, OwnersDiffer};
ghost use Rattle.fbc_runs.specs.Reading.{ReadsAs};
ghost use Rattle.fbc_page_edits.specs.Edited.{with_page};
ghost use Rattle.std.specs.Prelude.{◌≡◌, ◌<◌, ◌∷◌, ℕ, Contains, List, false};

/// The mark of an open transaction is not read, and no mark is that commits no number.
pub fn marks_are_not_read()
    ensures living { (shape : Shape) (view : View) (number marked : ℕ) (state : State) (content : Page)
        (living : List Transaction) (m : Machine)
        → IsAdmittedEdit shape view number (Mark marked state) content → (t : Transaction) → Contains living t → t.number ≡ marked
        → ReadsAs (meaning_with living view) m → ReadsAs (meaning_with living (with_page view number content)) m }
    ensures uncommitted { (shape : Shape) (view : View) (number marked : ℕ) (state : State) (content : Page)
        (living : List Transaction) (m : Machine)
        → IsAdmittedEdit shape view number (Mark marked state) content → is_committed_state state ≡ false
        → ReadsAs (meaning_with living view) m → ReadsAs (meaning_with living (with_page view number content)) m }
{}

/// The mark that commits the number of a transaction that was open till then is the commit of its owner.
pub fn marks_commit()
    ensures { (shape : Shape) (view : View) (number marked : ℕ) (content : Page)
        (living : List Transaction) (m : Machine) (t : Transaction) (sequence : ℕ)
        → IsAdmittedEdit shape view number (Mark marked Committed) content → Reaches view (TipRole sequence) number
        → AreOpen (t ∷ living) → IsApart living t → t.number ≡ marked → 0 < t.number
        → is_committed_state (state_of view marked) ≡ false
        → IsInFront m t.owner → OwnersDiffer m.transactions
        → ReadsAs (meaning_with (t ∷ living) view) m
        → ReadsAs (meaning_with living (with_page view number content)) (machine_step m (Commit t.owner)) }
{}
