//! Every kind of event, and every form of an edit, occurs in a legal history. None of these
//! functions does anything.

ghost use Rattle.fbc_examples.specs.Forms.{Form, OccursAs};
ghost use Rattle.fbc_examples.specs.Kinds.{Kind, Occurs};

/// Each kind of event, and each kind of edit among them, occurs in a legal history over a sound
/// file.
pub fn every_kind_of_event_occurs()
    ensures { (kind : Kind) → Occurs kind }
{}

/// Each form that an edit of a cell, a mark or a page can have occurs in a legal history over a
/// sound file.
pub fn every_form_of_edit_occurs()
    ensures { (form : Form) → OccursAs form }
{}
