//! Laws of legal histories. They do nothing when they are run.

ghost use Rattle.std.specs.Prelude.{◌≡◌, ◌≢◌, ◌∷◌, ℕ, Bool, Some, true};
ghost use Rattle.std.specs.Option.{IsSomeAnd};
ghost use Rattle.fbc_kinds.specs.View.{View, cell_at, cell_in, is_back, pointer_of};
ghost use Rattle.fbc_kinds.specs.declared.edits.Edit.TheVariants.{FreePage, PutCell};
ghost use Rattle.fbc_kinds.specs.declared.pages.Cell.{Cell};
ghost use Rattle.fbc_kinds.specs.declared.shapes.Shape.{Shape};
ghost use Rattle.fbc_legal.specs.Facts.{Names};
ghost use Rattle.fbc_legal.specs.HeldRows.{IsBelowHeldRow};
ghost use Rattle.fbc_legal.specs.Legal.{IsLegal};
ghost use Rattle.fbc_legal.specs.Stamps.{takes_link};
ghost use Rattle.fbc_world.specs.History.{History, Moment, happens};
ghost use Rattle.fbc_world.specs.PageCell.{draft, draft_owner, kept, newest};
ghost use Rattle.fbc_world.specs.WriteOrder.{IsPair};
ghost use Rattle.fbc_kinds.specs.Order.{StandsBefore};
ghost use Rattle.fbc_world.specs.declared.asks.Cause.{Cause};
ghost use Rattle.fbc_world.specs.declared.drafts.Draft.{Draft};
ghost use Rattle.fbc_world.specs.declared.events.Act.TheVariants.{Local, Write};
ghost use Rattle.fbc_world.specs.declared.events.LocalEvent.TheVariants as local;

/// What a legal history begins with is legal.
pub fn legal_so_far()
    ensures { (shape : Shape) (file : View) (before : History) (moment : Moment)
        → IsLegal shape file (moment ∷ before) → IsLegal shape file before }
{}

/// A page is written before which no page with a draft stands.
pub fn writes_come_in_order()
    ensures { (shape : Shape) (file : View) (before : History) (owner page high : ℕ) (reason : Cause) (failed landed : Bool) (drafted : Draft)
        → IsLegal shape file (happens owner (Write page reason failed) landed ∷ before)
        → draft shape file before high ≡ Some drafted → ¬ StandsBefore (IsPair before) high page }
{}

/// A page is freed that neither the newest header names, nor a newest pointer page that this names.
pub fn freed_pages_are_named_nowhere()
    ensures header { (shape : Shape) (file : View) (before : History) (owner page freed : ℕ) (landed : Bool)
        → IsLegal shape file (happens owner (Local (local.Edit page (FreePage freed))) landed ∷ before)
        → ¬ Names (newest shape file before 0) freed }
    ensures pointers { (shape : Shape) (file : View) (before : History) (owner page freed relation sequence pointer : ℕ) (landed : Bool)
        → IsLegal shape file (happens owner (Local (local.Edit page (FreePage freed))) landed ∷ before)
        → pointer_of (newest shape file before) relation sequence ≡ Some pointer
        → ¬ Names (newest shape file before pointer) freed }
{}

/// A version is put that names a back version only where this one stands in the file already, in a
/// page that is no draft of the owner, or in its draft that is to be written before.
pub fn back_versions_come_first()
    ensures { (shape : Shape) (file : View) (before : History) (owner page cell : ℕ) (content : Cell) (landed : Bool)
        → IsLegal shape file (happens owner (Local (local.Edit page (PutCell cell content))) landed ∷ before)
        → content.back_page ≢ 0 → content.back_page ≢ page → draft_owner shape file before content.back_page ≢ Some owner
        → IsSomeAnd (cell_in (kept shape file before content.back_page) content.back_cell) (λ back. is_back back.flag ≡ true) }
{}

/// A back value loses its link only where the chain of a row leads to it, and the owner has the page
/// of that row in EX.
pub fn links_are_cut_below_a_held_row()
    ensures { (shape : Shape) (file : View) (before : History) (owner page cell : ℕ) (old content : Cell) (landed : Bool)
        → IsLegal shape file (happens owner (Local (local.Edit page (PutCell cell content))) landed ∷ before)
        → cell_at (newest shape file before) page cell ≡ Some old
        → is_back old.flag ≡ true → takes_link old content ≡ true
        → IsBelowHeldRow shape file before owner page cell }
{}
