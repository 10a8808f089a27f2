//! What changes of one buffer.

ghost use Rattle.std.specs.Prelude.{◌≡◌, ◌≤◌, map, not, vec_len, vec_capacity};
ghost use Rattle.std.specs.List.{filter};
ghost use Rattle.fbc_buffers.specs.Holding.{changed, granted_wait, is_waiting, without};

use crate::buffers::Buffer;
use fbc_kinds::Page;
use fbc_levels::Level;

/// Another level or copy of a buffer, or another mark on it.
#[derive(Debug, Drop)]
pub(crate) enum Change {
    Level(Level),
    Copy(Option<Page>),
    Dirty(bool),
    Pinned(bool),
    Blocking(bool),
}

/// Makes the change.
pub(crate) fn apply(buffer: &mut Buffer, change: Change)
    ensures { buffer.new ≡ changed change buffer.old }
{
    match change {
        Change::Level(level) => buffer.level = level,
        Change::Copy(copy) => buffer.copy = copy,
        Change::Dirty(is_dirty) => buffer.is_dirty = is_dirty,
        Change::Pinned(is_pinned) => buffer.is_pinned = is_pinned,
        Change::Blocking(is_blocking) => buffer.is_blocking = is_blocking,
    }
}

/// The level that is waited for is granted.
fn grant(buffer: &mut Buffer)
    ensures { buffer.new ≡ granted_wait buffer.old }
{
    if let Some(level) = buffer.wanted {
        buffer.level = level;
        buffer.wanted = None;
    }
}

/// What is waited for is granted.
pub(crate) fn grant_all(held: &mut Vec<Buffer>)
    ensures items { held.new.items ≡ map granted_wait held.old.items }
    ensures capacity { vec_capacity held.new ≡ vec_capacity held.old }
{
    for buffer in held.iter_mut() {
        grant(buffer);
    }
}

/// Takes away the buffer of the page.
pub(crate) fn remove(held: &mut Vec<Buffer>, page: u32)
    ensures items { held.new.items ≡ without page held.old.items }
    ensures len { vec_len held.new ≤ vec_len held.old }
    ensures capacity { vec_capacity held.new ≡ vec_capacity held.old }
{
    held.retain(|buffer| buffer.page != page);
}

/// Takes away the buffer that waits.
pub(crate) fn remove_waiting(held: &mut Vec<Buffer>)
    ensures items { held.new.items ≡ filter (λ b. not (is_waiting b)) held.old.items }
    ensures len { vec_len held.new ≤ vec_len held.old }
    ensures capacity { vec_capacity held.new ≡ vec_capacity held.old }
{
    held.retain(|buffer| buffer.wanted.is_none());
}
