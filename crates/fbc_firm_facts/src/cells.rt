//! What an owner sees of a row by the row's own cell. None of these functions does anything.

ghost use Rattle.fbc_firm_facts.specs.OwnCells.{ShowsOwnCell};
ghost use Rattle.fbc_kinds.specs.Chain.{value_of};
ghost use Rattle.fbc_kinds.specs.Machine.{is_held, seen_by};
ghost use Rattle.fbc_kinds.specs.Sound.{IsSound};
ghost use Rattle.fbc_kinds.specs.View.{View, is_top};
ghost use Rattle.fbc_kinds.specs.declared.pages.Cell.{Cell};
ghost use Rattle.fbc_kinds.specs.declared.shapes.Shape.{Shape};
ghost use Rattle.fbc_kinds.specs.declared.snapshots.Transaction.{Transaction};
ghost use Rattle.fbc_legal.specs.Legal.{IsLegal};
ghost use Rattle.fbc_page_edits.specs.Edited.{IsOfShape};
ghost use Rattle.fbc_simulation.specs.Beside.{machine_of};
ghost use Rattle.fbc_world.specs.History.{History};
ghost use Rattle.fbc_world.specs.World.{world_of};
ghost use Rattle.std.specs.Prelude.{◌≡◌, ℕ, None, Some, false, true};

use fbc_simulation::legal_histories_are_simulated;
use fbc_soundness::legal_histories_are_whole;

/// Where a copy shows a row's own cell, an open transaction that holds the version there sees its value:
/// of a deletion, nothing. Where it does not hold the version, and that leads no further, it sees nothing,
/// and so where the cell has no newest version.
pub fn own_cells_show_what_is_seen()
    ensures held { (shape : Shape) (file : View) (history : History) (owner relation row : ℕ) (t : Transaction) (version : Cell)
        → IsOfShape shape file → IsSound file → IsLegal shape file history
        → (world_of shape file history).transaction owner ≡ Some t
        → ShowsOwnCell shape (world_of shape file history) owner relation row version
        → is_top version.flag ≡ true → is_held t.snapshot version.number ≡ true
        → seen_by (machine_of shape file history) owner relation row ≡ value_of version.flag version.value }
    ensures alone { (shape : Shape) (file : View) (history : History) (owner relation row : ℕ) (t : Transaction) (version : Cell)
        → IsOfShape shape file → IsSound file → IsLegal shape file history
        → (world_of shape file history).transaction owner ≡ Some t
        → ShowsOwnCell shape (world_of shape file history) owner relation row version
        → is_top version.flag ≡ true → is_held t.snapshot version.number ≡ false → version.back_page ≡ 0
        → seen_by (machine_of shape file history) owner relation row ≡ None }
    ensures no_top { (shape : Shape) (file : View) (history : History) (owner relation row : ℕ) (t : Transaction) (version : Cell)
        → IsOfShape shape file → IsSound file → IsLegal shape file history
        → (world_of shape file history).transaction owner ≡ Some t
        → ShowsOwnCell shape (world_of shape file history) owner relation row version
        → is_top version.flag ≡ false
        → seen_by (machine_of shape file history) owner relation row ≡ None }
{
    legal_histories_are_whole();
    legal_histories_are_simulated();
}
