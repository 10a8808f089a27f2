//! Versions that stand on another page than their row. None of these functions does anything.

ghost use Rattle.std.specs.Prelude.{◌≡◌, Some};
ghost use Rattle.fbc_examples.specs.Files.{old_value, small_shape, spread_file};
ghost use Rattle.fbc_examples.specs.Spread.{with_far_commit, with_far_move, with_far_oldest, with_far_writes, with_row_cut, with_spread_pages};
ghost use Rattle.fbc_kinds.specs.DataSpelling.{empty_cell};
ghost use Rattle.fbc_kinds.specs.View.{cell_at};
ghost use Rattle.fbc_legal.specs.Leans.{LeadsTo};
ghost use Rattle.fbc_legal.specs.Legal.{IsLegal};
ghost use Rattle.fbc_legal.specs.Rows.{IsCut};
ghost use Rattle.fbc_legal.specs.Scene.{HasDraft, newest_after, scene_of};
ghost use Rattle.fbc_legal.specs.Stamps.{stamp_after};
ghost use Rattle.fbc_legal.specs.Traces.{IsUnlinkedBy};
ghost use Rattle.fbc_world.specs.World.{world_of};

/// An older version loses its link, and one is cleared, on page 5. The row stands on page 4: its
/// chain leads to the version that is cut, and by an edit of page 4 the other one is reached no more.
pub fn versions_on_another_page_go()
    ensures legal { IsLegal small_shape spread_file with_far_writes }
    ensures cut { IsCut (scene_of small_shape spread_file with_spread_pages) 5 0 (old_value 2 66) }
    ensures row { LeadsTo (newest_after small_shape spread_file with_spread_pages) 4 0 5 0 }
    ensures cleared { IsUnlinkedBy small_shape spread_file 5 0 1 4 (stamp_after with_far_oldest) with_row_cut }
{}

/// A row of page 4 gets a new version over one that was moved to page 5, and is committed. The moved
/// version stands only in its owner's draft when it is named.
pub fn a_row_names_a_draft_of_another_page()
    ensures legal { IsLegal small_shape spread_file with_far_commit }
    ensures draft { HasDraft (scene_of small_shape spread_file with_far_move) 1 5 }
    ensures file { cell_at (world_of small_shape spread_file with_far_move).kept 5 2 ≡ Some empty_cell }
{}
