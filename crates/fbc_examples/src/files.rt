//! The files over which the examples begin. None of these functions does anything.

ghost use Rattle.fbc_examples.specs.Files.{IsStart, empty_file, new_file, row_file, small_shape, spread_file, stale_file, worn_file};

/// The files are sound. Each of their pages is within its limits, and stands under its own number.
pub fn the_files_are_sound()
    ensures new { IsStart small_shape new_file }
    ensures empty { IsStart small_shape empty_file }
    ensures row { IsStart small_shape row_file }
    ensures worn { IsStart small_shape worn_file }
    ensures spread { IsStart small_shape spread_file }
    ensures stale { IsStart small_shape stale_file }
{}
