//! What is not legal. None of these functions does anything.

ghost use Rattle.fbc_legal.specs.Legal.{IsLegal};
ghost use Rattle.fbc_examples.specs.Files.{empty_file, new_file, row_file, small_shape, worn_file};
ghost use Rattle.fbc_examples.specs.Refused.{with_downward_wait, with_early_mark, with_early_unpin, with_early_write, with_lost_draft, with_lost_page, with_robbed_owner, with_torn_chain, with_two_holders};

/// The guards refuse a mark before the data page is written, and a write before that of its high
/// page. They refuse to name a page no more that has a version, to clear a version that another one
/// names, to give a page up before its draft is written, to grant a page that another owner has, to
/// take a living owner's locks away, to pin the header no more before its next number is raised, and
/// to wait for a page that ranks lower than one that is pinned.
pub fn the_guards_refuse()
    ensures mark { ¬ IsLegal small_shape empty_file with_early_mark }
    ensures write { ¬ IsLegal small_shape empty_file with_early_write }
    ensures name { ¬ IsLegal small_shape row_file with_lost_page }
    ensures chain { ¬ IsLegal small_shape worn_file with_torn_chain }
    ensures draft { ¬ IsLegal small_shape new_file with_lost_draft }
    ensures holder { ¬ IsLegal small_shape new_file with_two_holders }
    ensures unpin { ¬ IsLegal small_shape empty_file with_early_unpin }
    ensures wait { ¬ IsLegal small_shape new_file with_downward_wait }
    ensures owner { ¬ IsLegal small_shape new_file with_robbed_owner }
{}
