//! Versions that nobody needs, which go. None of these functions does anything.

ghost use Rattle.fbc_legal.specs.Legal.{IsLegal};
ghost use Rattle.fbc_examples.specs.Clearing.{with_written_mark};
ghost use Rattle.fbc_examples.specs.Files.{small_shape, worn_file};

/// An older version is cut off and cleared, and so are a deleted row and one of a dead transaction.
pub fn old_versions_go()
    ensures { IsLegal small_shape worn_file with_written_mark }
{}
