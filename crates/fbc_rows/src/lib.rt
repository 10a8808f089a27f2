//! New rows: how the body of an insert finds an empty cell, or makes a data page where there is none, and puts the row there.
//!
//! `try_insert` goes over the desk from stage to stage (`Stage`): over the data pages that the relation has, from a sequence
//! on, to the first empty cell; and where there is none, to an empty slot of a pointer page and to a free page, which becomes
//! a data page and is named there. Where a page is missing or a write is due first it says so, stays where it stands, and
//! goes on from there when it is called again. Where what it found is gone it begins again.
//!
//! Contracts go by what the cache shows (`Showing`, of `fbc_chains`) and by the desk.
//!
//! - **Proved**, of `try_insert`:
//!   - It goes on from its old stage to later ones, and at one of them it comes to its answer, as `specs/Stages` says of each
//!     (`way`). Up to the taking of a free page all copies at hand stay as they are. Then come these edits, each once and in
//!     this order: the page is taken from its page inventory; it is formatted, and that page inventory is written before it,
//!     and the header too where the file does not count that yet; it is named on its pointer page, and is written before
//!     that; and the row is put, and the header is written before its page.
//!   - Again comes only where the page that the part remembers is named no more; where the header names more pointer pages
//!     than were looked at; where the last pass begins, since a relation may have no more pages or no page is free; and where
//!     the empty slot names a page by now, or the free page is taken.
//!   - Unbuilt comes exactly where the header is at hand and a further pointer page is due, or a further page inventory.
//!   - Refused comes exactly where the edit that is due may not be made, or the row is none of the relation's data page of its
//!     sequence, or is past all numbers.
//!   - Where there is no memory, the edits that were due before are made, and the part stands at the next one (`stops`).
//!   - A row is put by one edit that the desk made: the version has the number and the value, its cell stands on a data page,
//!     and the row's number is counted by the page's sequence and the cell. That sequence is the place from then on; the
//!     place moves with a row alone (`comes`).
//!   - A call that begins in the search for an empty cell passes over sequences to one where there is room, or over all of
//!     them; or to where the part stands, where a page is missing or damaged (`searches`). A sequence is passed over where its
//!     slot names no page, or names the relation's data page of the sequence, which is at hand and has no empty cell.
//!   - The limit comes in the last pass alone, when all sequences from where the part stood are passed over (`limit`).
//!   - A page is missed where the file may have it and it may not be used yet (`misses`). A page is called damaged where it
//!     lies past those that the file may have; where the header, a pointer page, a page inventory, or a page that a slot
//!     names stands elsewhere than is due, by the first rule that it breaks so; where the part remembers that it broke
//!     this rule when it was used, and it is named still; or where it is in use and is shown as free (`damages`).
//!   - A write is asked where an edit may be made but waits for a high page: it is the next write in order, of the edited
//!     page or one before it, and its cause is that high page (`writes`).
//!   - Behind a row that is put no page is in use, and neither is one where the part begins again, which then stands at its
//!     first line (`leaves`).
//!   - What is done between two steps is a run of the desk's calls (`goes`), and it ends.
//!   - `refuse` passes over a free page exactly where it was refused twice running, and there is a place for it.
//! - **Supposed**: nothing. What an edit needs is tested by the desk.
//! - **Argued**: that no edit is refused, and that what is asked is legal, are matters of laws that are not there yet.
//! - `fbc_attachment` inserts rows by it.
#![tactic(auto)]

mod gathering;
mod inserting;
mod making;
mod needs;
mod parts;
mod putting;
mod searching;
mod slots;

pub use inserting::try_insert;
pub use parts::{InsertPart, NewPage, RowStep, Stage};
