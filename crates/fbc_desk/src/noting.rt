//! What is noted of the pages that may be used.

ghost use Rattle.std.specs.Prelude.{◌≡◌, ◌<◌, length, if◌then◌else◌};
ghost use Rattle.std.specs.List.{list_any};
ghost use Rattle.fbc_notes.specs.Notes.{says_named};
ghost use Rattle.fbc_desk.specs.Calls.{GoesOn};
ghost use Rattle.fbc_desk.specs.Noting.{is_noted, may_note_now, names_now, with_note};

use crate::desk::{Desk, MOST_NOTES};
use fbc_kinds::{Cell, Value};
use fbc_notes::Note;

impl Desk {
    /// Notes something, if the pages that are at hand show it and there is a place for it: whether it is noted.
    #[tactic(auto, using(crate::proofs::Goes::note_goes))]
    pub fn note(&mut self, note: &Note) -> bool
        ensures noted { result ≡ is_noted self.old note.now }
        ensures after { self.new ≡ (if result then with_note note.now self.old else self.old) }
        ensures goes { GoesOn self.old self.new }
    {
        self.note_shown(note)
    }

    /// Notes what the pages that are at hand show.
    fn note_shown(&mut self, note: &Note) -> bool
        ensures noted { result ≡ is_noted self.old note.now }
        ensures after { self.new ≡ (if result then with_note note.now self.old else self.old) }
    {
        if self.may_note(note) && self.notes.len() < MOST_NOTES {
            self.push_note(note);
            true
        } else {
            false
        }
    }

    /// One note more.
    fn push_note(&mut self, note: &Note)
        requires place { length self.old.notes < 64 }
        ensures { self.new ≡ with_note note.now self.old }
    {
        // The borrow checker is told of these types, of which a note may be made.
        let _told: Option<(&Cell, &Value)> = None;
        self.notes.push(*note).unwrap();
    }

    /// Whether the pages that are at hand show it, and the one that it is of is in use.
    fn may_note(&self, note: &Note) -> bool
        ensures { result ≡ may_note_now self.now note.now }
    {
        match *note {
            Note::Named {
                relation,
                sequence,
                pointer,
                page,
            } => self.cache.pinned(page) && self.names_now(relation, sequence, pointer, page),
            _ => false,
        }
    }

    /// Whether the pointer page is the relation's, as far as is known, and names the data page for the sequence.
    fn names_now(&self, relation: u8, sequence: u32, pointer: u32, page: u32) -> bool
        ensures { result ≡ names_now self.now relation sequence pointer page }
    {
        let slots = self.slots();
        self.cache.pointer_page(relation, sequence / slots) == pointer
            && pointer != 0
            && self.cache.slot(pointer, sequence % slots) == page
            && page != 0
    }

    /// Whether it is noted that the page is named for the relation and sequence.
    pub fn is_named(&self, relation: u8, sequence: u32, page: u32) -> bool
        ensures { result ≡ list_any (says_named relation sequence page) self.now.notes }
    {
        self.notes
            .iter()
            .any(|note| says_named(note, relation, sequence, page))
    }
}

/// Whether the note says that the page is named for the relation and sequence.
fn says_named(note: &Note, relation: u8, sequence: u32, page: u32) -> bool
    ensures { result ≡ says_named relation sequence page note.now }
{
    match *note {
        Note::Named {
            relation: of,
            sequence: at,
            pointer: _,
            page: named,
        } => of == relation && at == sequence && named == page,
        _ => false,
    }
}
