//! Pages that are written for each cause, and locks that are lowered. None of these functions does
//! anything.

ghost use Rattle.std.specs.Prelude.{◌≡◌, Some};
ghost use Rattle.fbc_legal.specs.Legal.{IsLegal};
ghost use Rattle.fbc_examples.specs.Files.{empty_file, inventory_page, new_file, small_shape};
ghost use Rattle.fbc_examples.specs.Writing.{with_cycle, with_detach, with_eviction, with_free_number, with_free_relation, with_two_readers};
ghost use Rattle.fbc_world.specs.PageCell.{copy_of};

/// A page is written as its owner goes, against a circle of pairs, for room, and for another owner
/// that waits, which then reads it beside the one that wrote it, and has what was written.
pub fn pages_are_written()
    ensures detach { IsLegal small_shape new_file with_detach }
    ensures cycle { IsLegal small_shape new_file with_cycle }
    ensures eviction { IsLegal small_shape new_file with_eviction }
    ensures callback { IsLegal small_shape new_file with_two_readers }
    ensures copy { copy_of small_shape new_file with_two_readers 2 1 ≡ Some (inventory_page 5) }
{}

/// An owner gives up the number of its committed transaction, and a relation.
pub fn locks_are_given_up()
    ensures number { IsLegal small_shape empty_file with_free_number }
    ensures relation { IsLegal small_shape new_file with_free_relation }
{}
