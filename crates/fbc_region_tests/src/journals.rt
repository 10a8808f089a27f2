//! A journal in which a page is formatted, and what is recorded in it.

use crate::fixtures::{page, shape};
use fbc_kinds::Edit;
use fbc_levels::Level;
use fbc_world::{Act, Event, Journal, LocalEvent};
use std::alloc::{AllocError, Global};

/// Adds an event.
pub(crate) fn tell(journal: &mut Journal, actor: u32, act: Act) -> Result<(), AllocError> {
    journal.reserve(1)?;
    journal.push(Event { actor, act });
    Ok(())
}

/// Adds the edit of page 4.
pub(crate) fn tell_edit(journal: &mut Journal, actor: u32, edit: Edit) -> Result<(), AllocError> {
    tell(
        journal,
        actor,
        Act::Local(LocalEvent::Edit { page: 4, edit }),
    )
}

/// A journal of the fresh file's shape: owner 1 came, locked and pinned page 4, and made it a data page of sequence 0.
pub(crate) fn formatted(alloc: Global) -> Result<Journal, AllocError> {
    let mut journal = Journal::new(alloc, &shape())?;
    let buffers = 3;
    tell(&mut journal, 1, Act::Enter { buffers, name: 1 })?;
    let (resource, level) = (page(4), Level::Ex);
    tell(&mut journal, 1, Act::Grant { resource, level })?;
    tell(&mut journal, 1, Act::Local(LocalEvent::Pin { page: 4 }))?;
    let edit = Edit::Format {
        kind: 5,
        page: 4,
        relation: 0,
        sequence: 0,
    };
    tell_edit(&mut journal, 1, edit)?;
    Ok(journal)
}
