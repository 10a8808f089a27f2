//! Edits of cells. None of these functions does anything.

ghost use Rattle.fbc_closed_cuts.specs.Cut.{Cut};
ghost use Rattle.fbc_kinds.specs.View.{View};
ghost use Rattle.fbc_kinds.specs.declared.edits.Edit.TheVariants.{ClearCell, PutCell};
ghost use Rattle.fbc_kinds.specs.declared.pages.Cell.{Cell};
ghost use Rattle.fbc_kinds.specs.declared.pages.Page.{Page};
ghost use Rattle.fbc_kinds.specs.declared.shapes.Shape.{Shape};
ghost use Rattle.fbc_kinds.specs.declared.snapshots.Transaction.{Transaction};
ghost use Rattle.fbc_legal.specs.Guards.{GuardOfEdit};
ghost use Rattle.fbc_legal.specs.Rows.{IsCut, IsMove};
ghost use Rattle.fbc_legal.specs.Scene.{scene_of};
ghost use Rattle.fbc_runs.specs.Runs.{MayAllCome};
ghost use Rattle.fbc_simulation.specs.Beside.{machine_of};
ghost use Rattle.fbc_simulation.specs.Carried.{IsPutCarriedOut};
ghost use Rattle.fbc_simulation.specs.Changes.{AreDone, ForEachChange};
ghost use Rattle.fbc_simulation.specs.EditIn.{EditIsMeant, IsEditIn, commands_made};
ghost use Rattle.fbc_simulation.specs.Simulated.{IsSimulated};
ghost use Rattle.fbc_soundness.specs.Whole.{IsWhole};
ghost use Rattle.fbc_world.specs.World.{page_after, world_of};
ghost use Rattle.fbc_world.specs.History.{History};
ghost use Rattle.fbc_runs.specs.Ended.{is_owner_of};
ghost use Rattle.std.specs.Prelude.{◌≡◌, ℕ, List, Some, false, true};

use crate::backouts::backouts_are_meant;
use fbc_meanings::{
    cleared_deletions_are_not_read, cleared_values_are_not_read, cleared_versions_are_not_read,
    cuts_are_not_read, first_versions_insert, moves_are_not_read, new_versions_change,
    own_versions_change, uncommitted_versions_are_not_read,
};

/// A cell that is cleared is not read: a dead version without a back version, a settled deletion, or a
/// back value that no view reaches which sees the edit.
pub fn cleared_cells_are_meant()
    ensures { (shape : Shape) (file : View) (past : History) (owner page cell : ℕ)
        (content : Page) (cut : Cut) (living : List Transaction)
        → IsEditIn shape file past owner page (ClearCell cell) content cut living
        → EditIsMeant shape file past owner page (ClearCell cell) content cut living }
{
    cleared_versions_are_not_read();
    cleared_deletions_are_not_read();
    cleared_values_are_not_read();
}

/// A move is not read, and is no command.
fn moves_are_meant()
    ensures { (shape : Shape) (file : View) (past : History) (owner page cell : ℕ) (new : Cell)
        (content : Page) (cut : Cut) (living : List Transaction)
        → IsEditIn shape file past owner page (PutCell cell new) content cut living → IsMove (scene_of shape file past) owner page cell new
        → EditIsMeant shape file past owner page (PutCell cell new) content cut living }
{
    moves_are_not_read();
}

/// Nor is a cut: its number is settled.
fn cuts_are_meant()
    ensures { (shape : Shape) (file : View) (past : History) (owner page cell : ℕ) (new : Cell)
        (content : Page) (cut : Cut) (living : List Transaction)
        → IsEditIn shape file past owner page (PutCell cell new) content cut living → IsCut (scene_of shape file past) page cell new
        → EditIsMeant shape file past owner page (PutCell cell new) content cut living }
{
    cuts_are_not_read();
}

/// What an owner puts is not read where it does not go on: a first version, another in place of its own,
/// or one over another's.
fn puts_of_others_are_meant()
    ensures { (shape : Shape) (file : View) (past : History) (owner page cell : ℕ) (new : Cell)
        (content : Page) (cut : Cut) (living : List Transaction)
        → IsEditIn shape file past owner page (PutCell cell new) content cut living → is_owner_of living owner ≡ false
        → ForEachChange (scene_of shape file past) owner page cell new
        (EditIsMeant shape file past owner page (PutCell cell new) content cut living) }
{
    uncommitted_versions_are_not_read();
}

/// What an owner puts that goes on is a change of a row, which may come to the machine and is done.
fn puts_of_the_living_are_carried_out()
    ensures { (shape : Shape) (file : View) (past : History) (owner page cell : ℕ) (new : Cell)
        (content : Page) (cut : Cut) (living : List Transaction)
        → IsEditIn shape file past owner page (PutCell cell new) content cut living → is_owner_of living owner ≡ true
        → ForEachChange (scene_of shape file past) owner page cell new
        (IsPutCarriedOut shape file past owner page cell new content cut living) }
{
    first_versions_insert();
    own_versions_change();
    new_versions_change();
}

/// So it is meant: the machine in which the others are at their ends does the same.
fn puts_of_the_living_are_meant()
    ensures { (shape : Shape) (file : View) (past : History) (owner page cell : ℕ) (new : Cell)
        (content : Page) (cut : Cut) (living : List Transaction)
        → IsEditIn shape file past owner page (PutCell cell new) content cut living → is_owner_of living owner ≡ true
        → ForEachChange (scene_of shape file past) owner page cell new
        (EditIsMeant shape file past owner page (PutCell cell new) content cut living) }
{
    puts_of_the_living_are_carried_out();
}

/// What is put comes to the machine as the changes that it is, each of which is done.
pub fn changes_come()
    ensures { (shape : Shape) (file : View) (past : History) (owner page cell : ℕ) (new : Cell) (content : Page)
        → IsWhole (scene_of shape file past) → IsSimulated (scene_of shape file past)
        → GuardOfEdit (scene_of shape file past) owner page (PutCell cell new)
        → page_after shape (world_of shape file past) owner page (PutCell cell new) ≡ Some content
        → AreDone (machine_of shape file past)
        (commands_made shape (world_of shape file past) owner page (PutCell cell new)) }
{
    puts_of_the_living_are_carried_out();
}

/// A cell that is cleared is no change.
pub fn cleared_cells_come()
    ensures { (shape : Shape) (file : View) (past : History) (owner page cell : ℕ)
        → MayAllCome (machine_of shape file past) (commands_made shape (world_of shape file past) owner page (ClearCell cell)) }
{}

/// Whatever is put into a cell is meant.
pub fn put_cells_are_meant()
    ensures { (shape : Shape) (file : View) (past : History) (owner page cell : ℕ) (new : Cell)
        (content : Page) (cut : Cut) (living : List Transaction)
        → IsEditIn shape file past owner page (PutCell cell new) content cut living
        → EditIsMeant shape file past owner page (PutCell cell new) content cut living }
{
    moves_are_meant();
    cuts_are_meant();
    backouts_are_meant();
    puts_of_others_are_meant();
    puts_of_the_living_are_meant();
}
