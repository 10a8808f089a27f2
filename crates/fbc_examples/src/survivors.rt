//! Owners that die with open transactions, and those that come after them. None of these functions
//! does anything.

ghost use Rattle.std.specs.Option.{option_map};
ghost use Rattle.std.specs.Prelude.{◌≡◌, [], Some, false};
ghost use Rattle.fbc_examples.specs.Files.{empty_file, small_shape, worn_file};
ghost use Rattle.fbc_examples.specs.Survivors.{with_buried_number, with_left_number, with_lost_row, with_reopened_file, with_two_open};
ghost use Rattle.fbc_kinds.specs.DataSpelling.{empty_cell};
ghost use Rattle.fbc_kinds.specs.declared.snapshots.Transaction.{Transaction};
ghost use Rattle.fbc_kinds.specs.View.{cell_at};
ghost use Rattle.fbc_legal.specs.Legal.{IsLegal};
ghost use Rattle.fbc_legal.specs.Scene.{newest_after, number_resource};
ghost use Rattle.fbc_levels.specs.declared.levels.Level.TheVariants.{Sr};
ghost use Rattle.fbc_world.specs.World.{world_of};

/// Two owners have open transactions, and one of them cuts a version off that both snapshots hold.
/// The other dies, and its number is marked as dead by the one that lives, under SR.
pub fn a_dead_owner_is_outlived()
    ensures legal { IsLegal small_shape worn_file with_buried_number }
    ensures first { option_map (λ (t : Transaction). t.number) ((world_of small_shape worn_file with_two_open).transaction 1) ≡ Some 5 }
    ensures second { option_map (λ (t : Transaction). t.number) ((world_of small_shape worn_file with_two_open).transaction 2) ≡ Some 6 }
    ensures dead { (world_of small_shape worn_file with_left_number).is_alive 1 ≡ false }
    ensures number { (world_of small_shape worn_file with_left_number).granted 2 (number_resource 5) ≡ Sr }
{}

/// The only owner dies with a row that is written and not committed. The file is opened again, with no
/// request left; another owner marks the number as dead, and the row goes.
pub fn a_file_is_opened_again()
    ensures legal { IsLegal small_shape empty_file with_lost_row }
    ensures free { (world_of small_shape empty_file with_reopened_file).locks.requests ≡ [] }
    ensures gone { cell_at (newest_after small_shape empty_file with_lost_row) 4 0 ≡ Some empty_cell }
{}
