//! A free page becomes a data page.

ghost use Rattle.std.specs.Prelude.{◌≡◌, [], IfOk, OnErr};
ghost use Rattle.fbc_world.specs.declared.asks.Cause.TheVariants as causes;
ghost use Rattle.fbc_cache.specs.Giving.{IsWriteFor};
ghost use Rattle.fbc_desk.specs.Calls.{EditComesTo, GoesOn};
ghost use Rattle.fbc_space.specs.TakingPages.{DueComesTo, Takes, TakesTo, format_edit, format_highs, next};

use crate::free_steps::inventory_over;
use fbc_desk::{Desk, Made};
use fbc_kinds::Edit;
use fbc_world::{Ask, Cause};
use std::alloc::AllocError;

/// How far a free page has come.
#[derive(Clone, Copy, Debug, PartialEq, Eq)]
pub enum Taking {
    /// Its page inventory shows it as free.
    Free,
    /// It is taken, and not formatted yet.
    Taken,
    /// It is a data page.
    Formatted,
}

/// What the taking of a page comes to.
#[derive(Debug, Drop)]
pub enum TakeStep {
    /// It is a data page.
    Done,
    /// This write is due first.
    Must(Ask),
    /// An edit is not made: it does not have its grounds, or no place.
    Refused,
}

/// Takes a free page as the data page of the relation at that sequence, by the edits that are due: from its page inventory,
/// and then its format. Both pages are in use and held in EX. Called again after a write that was due first, it goes on
/// with the edit that was not made.
///
/// # Errors
///
/// Want of memory: what was made stands, as the stage says.
pub fn try_take(
    stage: &mut Taking,
    desk: &mut Desk,
    page: u32,
    relation: u8,
    sequence: u32,
) -> Result<TakeStep, AllocError>
    ensures taken { IfOk result (TakesTo page relation sequence stage.old stage.new desk.old desk.new) }
    ensures goes { GoesOn desk.old desk.new }
    ensures err { OnErr result (Takes page relation sequence stage.old desk.old stage.new desk.new) }
{
    while *stage != Taking::Formatted {
        match edit_due(*stage, desk, page, relation, sequence)? {
            Made::Done => *stage = next(*stage),
            Made::WriteFirst { page: edited, high } => {
                return Ok(TakeStep::Must(write_first(desk, edited, high)));
            }
            Made::Refused => return Ok(TakeStep::Refused),
        }
    }
    Ok(TakeStep::Done)
}

/// How far the page comes by the edit that is due.
fn next(stage: Taking) -> Taking
    ensures { result ≡ next stage }
{
    match stage {
        Taking::Free => Taking::Taken,
        Taking::Taken | Taking::Formatted => Taking::Formatted,
    }
}

/// Makes the edit that is due.
fn edit_due(
    stage: Taking,
    desk: &mut Desk,
    page: u32,
    relation: u8,
    sequence: u32,
) -> Result<Made, AllocError>
    ensures made { IfOk result (DueComesTo page relation sequence stage desk.old desk.new) }
    ensures goes { GoesOn desk.old desk.new }
    ensures err { OnErr result (desk.new ≡ desk.old) }
{
    match stage {
        Taking::Free => {
            let over = inventory_over(desk, page);
            desk.edit(over, Edit::TakePage { page }, &[])
        }
        Taking::Taken => format(desk, page, relation, sequence),
        Taking::Formatted => Ok(Made::Done),
    }
}

/// Formats a page that is taken. The page inventory over it is written first, and so is the header where the file does not
/// count that yet.
fn format(desk: &mut Desk, page: u32, relation: u8, sequence: u32) -> Result<Made, AllocError>
    ensures made { IfOk result (EditComesTo desk.old desk.new page (format_edit page relation sequence) (format_highs desk.old page)) }
    ensures goes { GoesOn desk.old desk.new }
    ensures err { OnErr result (desk.new ≡ desk.old) }
{
    let highs = [inventory_over(desk, page), 0];
    let count = if desk.is_in_file(page / desk.inventory_bits()) {
        1
    } else {
        2
    };
    desk.edit(page, format_edit(page, relation, sequence), &highs[..count])
}

/// The format of a data page.
fn format_edit(page: u32, relation: u8, sequence: u32) -> Edit
    ensures { result ≡ format_edit page relation sequence }
{
    Edit::Format {
        kind: 5,
        page,
        relation,
        sequence,
    }
}

/// The next write in order before an edit of a page that is to be written before the high page.
fn write_first(desk: &Desk, edited: u32, high: u32) -> Ask
    ensures { IsWriteFor desk.now.cache.pairs edited (causes.Cycle high) result }
{
    Ask::Write {
        page: desk.cache().next_to_write(edited),
        cause: Cause::Cycle { high },
    }
}
