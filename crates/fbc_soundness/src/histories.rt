//! Laws of whole histories. None of these functions does anything.

ghost use Rattle.fbc_closed_cuts.specs.Owed.{KeepsViewsSound};
ghost use Rattle.fbc_kinds.specs.Sound.{IsSound};
ghost use Rattle.fbc_kinds.specs.declared.edits.Edit.{Edit};
ghost use Rattle.fbc_legal.specs.Legal.{IsLegal};
ghost use Rattle.fbc_kinds.specs.View.{View};
ghost use Rattle.fbc_kinds.specs.declared.shapes.Shape.{Shape};
ghost use Rattle.fbc_legal.specs.Scene.{scene_of};
ghost use Rattle.fbc_origins.specs.Origins.{IsOriginal};
ghost use Rattle.fbc_origins.specs.Owed.{IsInOrder, MakeNoLinks};
ghost use Rattle.fbc_soundness.specs.Whole.{IsWhole};
ghost use Rattle.fbc_page_edits.specs.Edited.{IsOfShape};
ghost use Rattle.fbc_world.specs.History.{History, Moment};
ghost use Rattle.std.specs.Prelude.{◌∷◌, []};

use crate::{
    add_inventory_keeps_views, add_pointer_keeps_views, add_tip_keeps_views, format_keeps_views,
    free_page_keeps_views, name_keeps_views, set_next_keeps_views, take_page_keeps_views,
    unname_keeps_views,
};
use fbc_closed_cuts::{
    acts_uphold_what_is_upheld, edits_uphold_what_is_upheld, first_views_are_upheld,
};
use fbc_numbers::{
    commit_marks_keep_views_sound, dead_marks_keep_views_sound, events_keep_numbers,
    events_keep_opens_apart, first_numbers_are_kept, first_opens_stand_apart,
};
use fbc_origins::{
    clear_cell_keeps_views_sound, events_keep_cuts_settled, events_keep_origins,
    events_keep_rows_named, first_cuts_are_settled, first_rows_stand, put_cell_keeps_views_sound,
};

/// Before the first event every stamp is one of the file.
pub fn first_stamps_are_of_the_file()
    ensures { (shape : Shape) (file : View) → IsOriginal (scene_of shape file []) }
{}

/// An edit of what is no cell adds no link to a view that sees it, where all is in order.
pub fn edits_of_no_cells_make_no_links()
    ensures { (shape : Shape) (file : View) (past : History) → IsInOrder (scene_of shape file past) → MakeNoLinks (scene_of shape file past) }
{}

/// Over a sound file of its shape all stands before the first event as it is to stand.
pub fn first_moments_are_whole()
    ensures { (shape : Shape) (file : View) → IsOfShape shape file → IsSound file → IsWhole (scene_of shape file []) }
{
    first_views_are_upheld();
    first_numbers_are_kept();
    first_rows_stand();
    first_opens_stand_apart();
    first_cuts_are_settled();
}

/// Where all is in order, each edit leaves the views that see it sound.
pub fn edits_keep_views_sound_in_order()
    ensures { (shape : Shape) (file : View) (past : History) (edit : Edit) → IsInOrder (scene_of shape file past) → KeepsViewsSound shape file past edit }
{
    set_next_keeps_views();
    add_tip_keeps_views();
    add_pointer_keeps_views();
    add_inventory_keeps_views();
    take_page_keeps_views();
    free_page_keeps_views();
    format_keeps_views();
    name_keeps_views();
    unname_keeps_views();
    dead_marks_keep_views_sound();
    commit_marks_keep_views_sound();
    put_cell_keeps_views_sound();
    clear_cell_keeps_views_sound();
}

/// Each legal event keeps all of it: edits, writes of both outcomes, deaths, begins, purges, and every
/// other event.
pub fn events_keep_all_whole()
    ensures { (shape : Shape) (file : View) (before : History) (moment : Moment) → IsLegal shape file (moment ∷ before)
        → IsWhole (scene_of shape file before) → IsWhole (scene_of shape file (moment ∷ before)) }
{
    edits_keep_views_sound_in_order();
    edits_of_no_cells_make_no_links();
    acts_uphold_what_is_upheld();
    edits_uphold_what_is_upheld();
    events_keep_numbers();
    events_keep_origins();
    events_keep_rows_named();
    events_keep_opens_apart();
    events_keep_cuts_settled();
}

/// After every legal history over a sound file of its shape all stands as it is to stand.
pub fn legal_histories_are_whole()
    ensures { (shape : Shape) (file : View) (history : History) → IsOfShape shape file → IsSound file
        → IsLegal shape file history → IsWhole (scene_of shape file history) }
{
    first_moments_are_whole();
    events_keep_all_whole();
}
