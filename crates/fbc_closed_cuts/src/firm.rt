//! Laws of what is firm for an owner: what every view shows that holds all its drafts. None of these
//! functions does anything.

ghost use Rattle.fbc_closed_cuts.specs.Cut.{Cut, view};
ghost use Rattle.fbc_closed_cuts.specs.Firm.{HasOwnDrafts, IsFirm};
ghost use Rattle.fbc_closed_cuts.specs.Views.{cut_before, is_edit};
ghost use Rattle.std.specs.Prelude.{◌≡◌, ◌≢◌, ◌∷◌, ℕ, Bool, Some, false, true};
ghost use Rattle.fbc_kinds.specs.View.{View};
ghost use Rattle.fbc_kinds.specs.declared.pages.Page.{Page};
ghost use Rattle.fbc_kinds.specs.declared.shapes.Shape.{Shape};
ghost use Rattle.fbc_legal.specs.Legal.{IsLegal};
ghost use Rattle.fbc_world.specs.History.{History, Moment};
ghost use Rattle.fbc_world.specs.World.{newest_of, world_of};

/// An owner's copy of a page is what every view shows of it that holds all the owner's drafts.
pub fn copies_are_firm()
    ensures { (shape : Shape) (file : View) (history : History) (owner page : ℕ) (content : Page) (cut : Cut)
        → IsLegal shape file history → (world_of shape file history).copy owner page ≡ Some content
        → HasOwnDrafts (world_of shape file history) owner cut
        → view (world_of shape file history) cut page ≡ Some content }
{}

/// While another does what is no edit, a closed cut that has all of an owner's drafts comes from such
/// a cut before, and its view is the same. So all facts that are firm for the owner stay.
pub fn cuts_of_own_drafts_come_from_such()
    ensures cut { (shape : Shape) (file : View) (before : History) (moment : Moment) (owner : ℕ) (cut : Cut)
        → IsLegal shape file (moment ∷ before) → moment.event.actor ≢ owner → is_edit moment.event.act ≡ false
        → HasOwnDrafts (world_of shape file (moment ∷ before)) owner cut
        → HasOwnDrafts (world_of shape file before) owner (cut_before moment.event.act moment.landed cut) }
    ensures view { (shape : Shape) (file : View) (before : History) (moment : Moment) (owner page : ℕ) (cut : Cut)
        → IsLegal shape file (moment ∷ before) → moment.event.actor ≢ owner → is_edit moment.event.act ≡ false
        → HasOwnDrafts (world_of shape file (moment ∷ before)) owner cut
        → view (world_of shape file (moment ∷ before)) cut page
        ≡ view (world_of shape file before) (cut_before moment.event.act moment.landed cut) page }
{}

/// What is firm for an owner stays so through others' events that are no edits: through their
/// writes of both outcomes and their deaths among them.
pub fn firm_facts_outlive_others()
    ensures { (shape : Shape) (file : View) (before : History) (moment : Moment) (owner : ℕ) (passes : View → Bool)
        → IsLegal shape file (moment ∷ before) → moment.event.actor ≢ owner → is_edit moment.event.act ≡ false
        → IsFirm (world_of shape file before) owner passes
        → IsFirm (world_of shape file (moment ∷ before)) owner passes }
{}

/// What is firm for an owner is so of the newest pages.
pub fn firm_facts_are_newest()
    ensures { (shape : Shape) (file : View) (history : History) (owner : ℕ) (passes : View → Bool)
        → IsFirm (world_of shape file history) owner passes → passes (newest_of (world_of shape file history)) ≡ true }
{}
