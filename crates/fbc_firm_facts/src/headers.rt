//! What headers show, in every view that has an owner's drafts. None of these functions does anything.

ghost use Rattle.fbc_closed_cuts.specs.Firm.{IsFirm};
ghost use Rattle.fbc_closed_cuts.specs.Growth.{GrowsInto};
ghost use Rattle.fbc_firm_facts.specs.EditLeaves.{IsOwnViewOfEdit};
ghost use Rattle.fbc_firm_facts.specs.HeaderFacts.{GrowsWithHeaders};
ghost use Rattle.fbc_notes.specs.HeaderTests.{counts_inventory, has_given_out, names_pointer, names_tip};
ghost use Rattle.fbc_closed_cuts.specs.Cut.{Cut, view};
ghost use Rattle.fbc_kinds.specs.Sound.{IsSound};
ghost use Rattle.fbc_kinds.specs.View.{View};
ghost use Rattle.fbc_kinds.specs.declared.edits.Edit.{Edit};
ghost use Rattle.fbc_kinds.specs.declared.pages.Page.{Page};
ghost use Rattle.fbc_kinds.specs.declared.shapes.Shape.{Shape};
ghost use Rattle.fbc_legal.specs.Legal.{IsLegal};
ghost use Rattle.fbc_page_edits.specs.Edited.{IsOfShape, with_page};
ghost use Rattle.fbc_world.specs.History.{History, Moment};
ghost use Rattle.fbc_world.specs.World.{world_of};
ghost use Rattle.std.specs.Prelude.{◌≡◌, ◌≢◌, ◌∷◌, ℕ, Bool, true};

use fbc_soundness::legal_histories_are_whole;

/// That a header names a transaction inventory page or a pointer page, counts a page inventory, or has
/// given a number out, stays so when it grows.
pub fn header_tests_grow()
    ensures tips { (sequence tip : ℕ) → GrowsWithHeaders (names_tip sequence tip) }
    ensures pointers { (relation sequence pointer : ℕ) → GrowsWithHeaders (names_pointer relation sequence pointer) }
    ensures inventories { (sequence : ℕ) → GrowsWithHeaders (counts_inventory sequence) }
    ensures numbers { (number : ℕ) → GrowsWithHeaders (has_given_out number) }
{}

/// The header of a view that has an owner's drafts and sees an edit, by anyone, grows into the one after
/// the edit.
pub fn seen_edits_grow_headers()
    ensures { (shape : Shape) (file : View) (before : History) (actor page : ℕ) (edit : Edit) (owner : ℕ) (content : Page) (cut : Cut)
        → IsLegal shape file before
        → IsOwnViewOfEdit shape file before actor page edit owner content cut
        → GrowsInto (view (world_of shape file before) cut 0) (with_page (view (world_of shape file before) cut) page content 0) }
{}

/// What the header shows in every view that has an owner's drafts stays so when it grows with headers:
/// through every event of another, and through every event of the owner that it outlives.
pub fn header_facts_stay_firm()
    ensures others { (shape : Shape) (file : View) (before : History) (moment : Moment) (owner : ℕ) (passes : View → Bool)
        → IsOfShape shape file → IsSound file
        → IsLegal shape file (moment ∷ before) → moment.event.actor ≢ owner → GrowsWithHeaders passes
        → IsFirm (world_of shape file before) owner passes
        → IsFirm (world_of shape file (moment ∷ before)) owner passes }
    ensures own { (shape : Shape) (file : View) (before : History) (moment : Moment) (passes : View → Bool)
        → IsOfShape shape file → IsSound file
        → IsLegal shape file (moment ∷ before) → (world_of shape file (moment ∷ before)).is_alive moment.event.actor ≡ true
        → GrowsWithHeaders passes
        → IsFirm (world_of shape file before) moment.event.actor passes
        → IsFirm (world_of shape file (moment ∷ before)) moment.event.actor passes }
{
    legal_histories_are_whole();
}
