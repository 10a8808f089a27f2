//! Laws of all edits over one view. These functions do nothing of their own.

ghost use Rattle.std.specs.Prelude.{ℕ};
ghost use Rattle.fbc_kinds.specs.Reach.{ReachesPage};
ghost use Rattle.fbc_kinds.specs.Sound.{IsSound};
ghost use Rattle.fbc_kinds.specs.View.{View};
ghost use Rattle.fbc_kinds.specs.declared.edits.Edit.{Edit};
ghost use Rattle.fbc_kinds.specs.declared.edits.Edit.TheVariants.{ClearCell, Mark, PutCell};
ghost use Rattle.fbc_kinds.specs.declared.pages.Cell.{Cell};
ghost use Rattle.fbc_kinds.specs.declared.pages.Page.{Page};
ghost use Rattle.fbc_kinds.specs.declared.pages.State.{State};
ghost use Rattle.fbc_kinds.specs.declared.shapes.Shape.{Shape};
ghost use Rattle.fbc_version_edits.specs.Forms.{IsAdmittedEdit};
ghost use Rattle.fbc_page_edits.specs.Edited.{with_page};
ghost use Rattle.fbc_version_edits.specs.Differences.{NamesTheSame};
ghost use Rattle.fbc_version_edits.specs.Kept.{ChangeOffReachKeeps};
ghost use Rattle.fbc_version_edits.specs.Puts.{IsAllowedClear, IsAllowedPut, IsClearIn, IsPutIn};

use crate::clears::{
    cleared_deletions_keep_views, cleared_values_keep_views, cleared_versions_keep_views,
};
use crate::cuts::cuts_keep_views;
use crate::marks::marks_keep_views;
use crate::puts::{first_versions_keep_views, moved_versions_keep_views, own_versions_keep_views};
use crate::tops::{backouts_keep_views, new_versions_keep_views};
use fbc_page_edits::{
    added_inventories_keep_views, added_pointers_keep_views, added_tips_keep_views,
    formats_keep_views, freed_pages_keep_views, named_pages_keep_views, raised_numbers_keep_views,
    taken_pages_keep_views, unnamed_pages_keep_views,
};

/// An edit of a cell that a view allows has one of the forms that the other laws speak of.
pub fn cell_edits_have_forms()
    ensures put { (shape : Shape) (view : View) (number cell : ℕ) (new : Cell) (content : Page)
        → IsAdmittedEdit shape view number (PutCell cell new) content → IsAllowedPut shape view number cell new content }
    ensures clear { (shape : Shape) (view : View) (number cell : ℕ) (content : Page)
        → IsAdmittedEdit shape view number (ClearCell cell) content → IsAllowedClear shape view number cell content }
{}

/// An edit of a cell, and a mark, leave what the view names.
pub fn row_edits_keep_names()
    ensures put { (shape : Shape) (view : View) (number cell : ℕ) (new : Cell) (content : Page)
        → IsPutIn shape view number cell new content → NamesTheSame view (with_page view number content) }
    ensures clear { (shape : Shape) (view : View) (number cell : ℕ) (content : Page)
        → IsClearIn shape view number cell content → NamesTheSame view (with_page view number content) }
    ensures mark { (shape : Shape) (view : View) (number marked : ℕ) (state : State) (content : Page)
        → IsAdmittedEdit shape view number (Mark marked state) content → NamesTheSame view (with_page view number content) }
{}

/// A sound view stays sound under every edit that it allows.
pub fn edits_keep_views_sound()
    ensures { (shape : Shape) (view : View) (number : ℕ) (any : Edit) (content : Page)
        → IsAdmittedEdit shape view number any content → IsSound (with_page view number content) }
{
    raised_numbers_keep_views();
    added_tips_keep_views();
    added_pointers_keep_views();
    added_inventories_keep_views();
    taken_pages_keep_views();
    freed_pages_keep_views();
    marks_keep_views();
    named_pages_keep_views();
    unnamed_pages_keep_views();
    cell_edits_have_forms();
    first_versions_keep_views();
    own_versions_keep_views();
    new_versions_keep_views();
    moved_versions_keep_views();
    backouts_keep_views();
    cuts_keep_views();
    cleared_versions_keep_views();
    cleared_deletions_keep_views();
    cleared_values_keep_views();
    formats_keep_views();
}

/// A page that a view does not reach may change at will: the view stays sound, reads as before and means
/// the same.
pub fn changes_off_reach_keep_views()
    ensures { (view : View) (number : ℕ) (content : Page) → IsSound view → ¬ ReachesPage view number
        → ChangeOffReachKeeps view (with_page view number content) }
{}
