//! The mark of a number.

ghost use Rattle.std.specs.Prelude.{◌≡◌, IfOk, OnErr};
ghost use Rattle.fbc_desk.specs.Calls.{GoesOn};
ghost use Rattle.fbc_tip.specs.Marks.{MarkComesTo};

use fbc_desk::{Desk, Made};
use fbc_kinds::{Edit, State};
use fbc_world::{Ask, Cause};
use std::alloc::AllocError;

/// What a mark comes to.
#[derive(Debug, Drop)]
pub enum MarkStep {
    /// It is made.
    Done,
    /// It is not made: this write comes first.
    Must(Ask),
    /// It is not made: it does not have its grounds, or no place.
    Refused,
}

/// Marks the number on its transaction inventory page, which is in use and held in EX. Those of the high pages that are
/// dirty are to be written before that page from now on. Where it is to be written before one of them, the next write in
/// order is due, and then the call is made again.
///
/// # Errors
///
/// Want of memory: the desk is then as it was.
pub fn try_mark(
    desk: &mut Desk,
    page: u32,
    number: u32,
    state: State,
    highs: &[u32],
) -> Result<MarkStep, AllocError>
    ensures step { IfOk result (MarkComesTo desk.old desk.new page number state highs.now) }
    ensures goes { GoesOn desk.old desk.new }
    ensures err { OnErr result (desk.new ≡ desk.old) }
{
    match desk.edit(page, Edit::Mark { number, state }, highs)? {
        Made::Done => Ok(MarkStep::Done),
        Made::WriteFirst { page, high } => Ok(MarkStep::Must(Ask::Write {
            page: desk.cache().next_to_write(page),
            cause: Cause::Cycle { high },
        })),
        Made::Refused => Ok(MarkStep::Refused),
    }
}
