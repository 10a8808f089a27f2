//! What an owner may note, and how long that holds. None of these functions does anything.

ghost use Rattle.fbc_closed_cuts.specs.Views.{is_edit};
ghost use Rattle.fbc_firm_facts.specs.NotesHold.{IsSupported, NoteHolds};
ghost use Rattle.fbc_kinds.specs.declared.pages.Cell.{Cell};
ghost use Rattle.fbc_kinds.specs.Sound.{IsSound};
ghost use Rattle.fbc_kinds.specs.View.{View};
ghost use Rattle.fbc_kinds.specs.declared.shapes.Shape.{Shape};
ghost use Rattle.fbc_legal.specs.Legal.{IsLegal};
ghost use Rattle.fbc_notes.specs.Notes.{is_lasting, may_note};
ghost use Rattle.fbc_kinds.specs.Machine.{is_held};
ghost use Rattle.fbc_kinds.specs.declared.snapshots.Transaction.{Transaction};
ghost use Rattle.fbc_notes.specs.Sights.{MaySee, MaySeeBelow, MaySeeNoPage, MaySeeNone, MayStand};
ghost use Rattle.fbc_notes.specs.declared.notes.Note.{Note};
ghost use Rattle.fbc_notes.specs.declared.notes.Note.TheVariants.{Sees, Stands};
ghost use Rattle.fbc_page_edits.specs.Edited.{IsOfShape};
ghost use Rattle.fbc_world.specs.History.{History, Moment};
ghost use Rattle.fbc_world.specs.World.{world_of};
ghost use Rattle.std.specs.List.{All};
ghost use Rattle.std.specs.Prelude.{◌≡◌, ◌≢◌, ◌∷◌, ℕ, List, None, Option, Some, false, true};

use crate::seen::events_of_others_leave_what_is_seen;
use fbc_simulation::legal_histories_are_simulated;
use fbc_soundness::legal_histories_are_whole;

/// What an owner may note by its copies, and by notes that hold, holds.
pub fn notes_hold_where_copies_show_them()
    ensures { (shape : Shape) (file : View) (history : History) (owner : ℕ) (notes : List Note) (note : Note)
        → IsOfShape shape file → IsSound file → IsLegal shape file history
        → All (NoteHolds shape file history owner) notes
        → may_note shape ((world_of shape file history).copy owner) notes note ≡ true
        → NoteHolds shape file history owner note }
{
    legal_histories_are_whole();
}

/// What an open transaction may note of a row by a copy that shows the row's own cell, on a page that a
/// note names, it sees.
pub fn sights_hold_where_copies_show_them()
    ensures { (shape : Shape) (file : View) (history : History) (owner relation row : ℕ) (t : Transaction) (notes : List Note) (value : Option (List ℕ))
        → IsOfShape shape file → IsSound file → IsLegal shape file history
        → (world_of shape file history).transaction owner ≡ Some t
        → All (NoteHolds shape file history owner) notes
        → MaySee shape (is_held t.snapshot) ((world_of shape file history).copy owner) notes relation row value
        → NoteHolds shape file history owner (Sees relation row value) }
{
    legal_histories_are_whole();
    legal_histories_are_simulated();
}

/// An open transaction stands where it may note that it does: in a row's own cell of a `Ground`, and in the
/// cell to which another stand leads.
pub fn stands_hold_where_copies_show_them()
    ensures { (shape : Shape) (file : View) (history : History) (owner relation row page cell : ℕ) (version : Cell) (t : Transaction) (notes : List Note)
        → IsOfShape shape file → IsSound file → IsLegal shape file history
        → (world_of shape file history).transaction owner ≡ Some t
        → All (NoteHolds shape file history owner) notes
        → MayStand shape (is_held t.snapshot) ((world_of shape file history).copy owner) notes relation row page cell version
        → NoteHolds shape file history owner (Stands relation row page cell version) }
{
    legal_histories_are_whole();
    legal_histories_are_simulated();
}

/// Where an open transaction may note by a `Ground` that it sees nothing of a row, it does not.
pub fn grounds_tell_where_nothing_is_seen()
    ensures { (shape : Shape) (file : View) (history : History) (owner relation row : ℕ) (t : Transaction) (notes : List Note)
        → IsOfShape shape file → IsSound file → IsLegal shape file history
        → (world_of shape file history).transaction owner ≡ Some t
        → All (NoteHolds shape file history owner) notes
        → MaySeeNone shape (is_held t.snapshot) ((world_of shape file history).copy owner) notes relation row
        → NoteHolds shape file history owner (Sees relation row None) }
{
    legal_histories_are_whole();
    legal_histories_are_simulated();
}

/// Where an open transaction may note by copies that no page is named for a row, it sees nothing of it.
pub fn rows_without_pages_show_nothing()
    ensures { (shape : Shape) (file : View) (history : History) (owner relation row : ℕ) (t : Transaction) (notes : List Note)
        → IsOfShape shape file → IsSound file → IsLegal shape file history
        → (world_of shape file history).transaction owner ≡ Some t
        → All (NoteHolds shape file history owner) notes
        → MaySeeNoPage shape ((world_of shape file history).copy owner) notes relation row
        → NoteHolds shape file history owner (Sees relation row None) }
{
    legal_histories_are_whole();
    legal_histories_are_simulated();
}

/// What an open transaction may note of a row by where it stands, it sees.
pub fn sights_hold_where_stands_tell_them()
    ensures { (shape : Shape) (file : View) (history : History) (owner relation row : ℕ) (t : Transaction) (notes : List Note) (value : Option (List ℕ))
        → IsOfShape shape file → IsSound file → IsLegal shape file history
        → (world_of shape file history).transaction owner ≡ Some t
        → All (NoteHolds shape file history owner) notes
        → MaySeeBelow (is_held t.snapshot) notes relation row value
        → NoteHolds shape file history owner (Sees relation row value) }
{
    legal_histories_are_whole();
    legal_histories_are_simulated();
}

/// A note that holds goes on to through every legal event of another, while the page on which it rests
/// is pinned.
pub fn others_leave_supported_notes()
    ensures { (shape : Shape) (file : View) (before : History) (moment : Moment) (owner : ℕ) (note : Note)
        → IsOfShape shape file → IsSound file
        → IsLegal shape file (moment ∷ before) → moment.event.actor ≢ owner
        → IsSupported (world_of shape file before) owner note
        → NoteHolds shape file before owner note
        → NoteHolds shape file (moment ∷ before) owner note }
{
    legal_histories_are_whole();
    legal_histories_are_simulated();
    events_of_others_leave_what_is_seen();
}

/// A lasting note goes on to hold through every event of its owner that the owner outlives, its own edits
/// among them.
pub fn own_events_leave_lasting_notes()
    ensures { (shape : Shape) (file : View) (before : History) (moment : Moment) (note : Note)
        → IsOfShape shape file → IsSound file
        → IsLegal shape file (moment ∷ before)
        → (world_of shape file (moment ∷ before)).is_alive moment.event.actor ≡ true
        → is_lasting note ≡ true
        → NoteHolds shape file before moment.event.actor note
        → NoteHolds shape file (moment ∷ before) moment.event.actor note }
{
    legal_histories_are_whole();
}

/// Every note goes on to hold through events of its owner that are no edits, while the owner lives and
/// has an open transaction that it has not marked as committed.
pub fn own_acts_leave_notes()
    ensures { (shape : Shape) (file : View) (before : History) (moment : Moment) (t : Transaction) (note : Note)
        → IsLegal shape file (moment ∷ before) → is_edit moment.event.act ≡ false
        → (world_of shape file (moment ∷ before)).is_alive moment.event.actor ≡ true
        → (world_of shape file before).transaction moment.event.actor ≡ Some t
        → (world_of shape file before).marked moment.event.actor ≡ None
        → NoteHolds shape file before moment.event.actor note
        → NoteHolds shape file (moment ∷ before) moment.event.actor note }
{}
