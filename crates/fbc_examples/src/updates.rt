//! A row that is updated, swept and updated again. None of these functions does anything.

ghost use Rattle.std.specs.Prelude.{◌≢◌};
ghost use Rattle.fbc_legal.specs.Legal.{IsLegal};
ghost use Rattle.fbc_legal.specs.Scene.{meant_at, scene_of};
ghost use Rattle.fbc_examples.specs.Files.{empty_file, small_shape};
ghost use Rattle.fbc_examples.specs.Updates.{with_moved_second, with_next_update};

/// A row is put and committed, updated and committed, cut off from its older version, which is
/// cleared, and updated again. The value that is moved then means no older version, and the one that
/// it is moved from meant the one that was cleared.
pub fn a_swept_row_is_updated()
    ensures legal { IsLegal small_shape empty_file with_next_update }
    ensures meant { meant_at (scene_of small_shape empty_file with_moved_second) 4 1 ≢ meant_at (scene_of small_shape empty_file with_moved_second) 4 0 }
{}
