//! Rows that are put, changed and committed, or rolled back. None of these functions does anything.

ghost use Rattle.fbc_legal.specs.Legal.{IsLegal};
ghost use Rattle.fbc_examples.specs.Files.{empty_file, new_file, row_file, small_shape};
ghost use Rattle.fbc_examples.specs.Rows.{with_cleared_move, with_commit, with_first_commit, with_unpinned_header};

/// A transaction begins. It may pin the header no more once the next number is raised.
pub fn a_transaction_begins()
    ensures { IsLegal small_shape empty_file with_unpinned_header }
{}

/// A transaction puts a row, gives it another value, and is committed.
pub fn a_row_is_committed()
    ensures { IsLegal small_shape empty_file with_commit }
{}

/// A transaction makes the first data page of a new file, puts a row on it, and is committed.
pub fn a_first_row_is_committed()
    ensures { IsLegal small_shape new_file with_first_commit }
{}

/// A transaction gives a row a new version and is rolled back, and the version is taken out again.
pub fn a_row_is_rolled_back()
    ensures { IsLegal small_shape row_file with_cleared_move }
{}
