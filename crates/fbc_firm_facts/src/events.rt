//! What is firm for an owner through every legal event. None of these functions does anything.

ghost use Rattle.fbc_closed_cuts.specs.Firm.{IsFirm};
ghost use Rattle.fbc_closed_cuts.specs.Views.{is_edit};
ghost use Rattle.fbc_firm_facts.specs.EditLeaves.{EditLeaves};
ghost use Rattle.fbc_kinds.specs.Sound.{IsSound};
ghost use Rattle.fbc_kinds.specs.View.{View};
ghost use Rattle.fbc_kinds.specs.declared.edits.Edit.{Edit};
ghost use Rattle.fbc_kinds.specs.declared.shapes.Shape.{Shape};
ghost use Rattle.fbc_legal.specs.Legal.{IsLegal};
ghost use Rattle.fbc_page_edits.specs.Edited.{IsOfShape};
ghost use Rattle.fbc_world.specs.History.{History, Moment, happens};
ghost use Rattle.fbc_world.specs.World.{world_of};
ghost use Rattle.fbc_world.specs.declared.events.Act.TheVariants.{Local};
ghost use Rattle.fbc_world.specs.declared.events.LocalEvent.TheVariants as local;
ghost use Rattle.std.specs.Prelude.{◌≡◌, ◌≢◌, ◌∷◌, ℕ, Bool, false, true};

use fbc_soundness::legal_histories_are_whole;

/// What is firm for an owner stays so through its own events that are no edits, its own writes among
/// them, as long as it lives.
pub fn own_acts_keep_firm_facts()
    ensures { (shape : Shape) (file : View) (before : History) (moment : Moment) (passes : View → Bool)
        → IsLegal shape file (moment ∷ before) → is_edit moment.event.act ≡ false
        → (world_of shape file (moment ∷ before)).is_alive moment.event.actor ≡ true
        → IsFirm (world_of shape file before) moment.event.actor passes
        → IsFirm (world_of shape file (moment ∷ before)) moment.event.actor passes }
{}

/// What is firm for an owner stays so through an edit that leaves it: an edit of another, or its own.
pub fn edits_leave_firm_facts()
    ensures { (shape : Shape) (file : View) (before : History) (actor page : ℕ) (edit : Edit) (landed : Bool)
        → (owner : ℕ) (passes : View → Bool)
        → IsOfShape shape file → IsSound file
        → IsLegal shape file (happens actor (Local (local.Edit page edit)) landed ∷ before)
        → EditLeaves shape file before actor page edit owner passes
        → IsFirm (world_of shape file before) owner passes
        → IsFirm (world_of shape file (happens actor (Local (local.Edit page edit)) landed ∷ before)) owner passes }
{
    legal_histories_are_whole();
}

/// What is firm for an owner stays so through every event of another, if it is left where that is an
/// edit.
pub fn events_of_others_leave_firm_facts()
    ensures { (shape : Shape) (file : View) (before : History) (moment : Moment) (owner : ℕ) (passes : View → Bool)
        → IsOfShape shape file → IsSound file
        → IsLegal shape file (moment ∷ before) → moment.event.actor ≢ owner
        → ((page : ℕ) (edit : Edit) → moment.event.act ≡ Local (local.Edit page edit)
        → EditLeaves shape file before moment.event.actor page edit owner passes)
        → IsFirm (world_of shape file before) owner passes
        → IsFirm (world_of shape file (moment ∷ before)) owner passes }
{
    legal_histories_are_whole();
}
