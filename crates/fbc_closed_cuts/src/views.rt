//! Laws of the views of legal histories: what the file may hold, by the drafts that may have reached
//! it. None of these functions does anything.

ghost use Rattle.std.specs.Prelude.{◌≡◌, ◌≢◌, ◌∷◌, [], ℕ, Bool, Option, false, true};
ghost use Rattle.fbc_closed_cuts.specs.Cut.{Cut, IsClosedCut, view};
ghost use Rattle.fbc_closed_cuts.specs.Edited.{IsCutAfterEdit, IsSameViewIn, IsViewOfEditIn, after_edit, stamps_before, view_before};
ghost use Rattle.fbc_closed_cuts.specs.Growth.{GrowsInto};
ghost use Rattle.fbc_closed_cuts.specs.Owed.{SeesEdit};
ghost use Rattle.fbc_closed_cuts.specs.Views.{cut_before, drafted_in, is_edit};
ghost use Rattle.fbc_kinds.specs.Reach.{ReachesPage};
ghost use Rattle.fbc_kinds.specs.View.{View};
ghost use Rattle.fbc_kinds.specs.declared.edits.Edit.{Edit};
ghost use Rattle.fbc_kinds.specs.declared.pages.Page.{Page};
ghost use Rattle.fbc_kinds.specs.declared.shapes.Shape.{Shape};
ghost use Rattle.fbc_legal.specs.Leans.{IsNamedNowhere, IsShown};
ghost use Rattle.fbc_legal.specs.Legal.{IsLegal};
ghost use Rattle.fbc_legal.specs.Rows.{IsNoInventory};
ghost use Rattle.fbc_legal.specs.Scene.{scene_of};
ghost use Rattle.fbc_legal.specs.Stamps.{Stamps};
ghost use Rattle.fbc_world.specs.History.{History, Moment};
ghost use Rattle.fbc_world.specs.World.{newest_of, world_of};

/// Before the first event each view is the file.
pub fn first_views_are_the_file()
    ensures { (shape : Shape) (file : View) (cut : Cut) (page : ℕ) → view (world_of shape file []) cut page ≡ file page }
{}

/// No legal event but an edit makes a new view: a closed cut after it is one before it, or lacks the
/// written page of one, and the view is the same. So it is with writes of both outcomes, deaths and
/// openings.
pub fn acts_make_no_new_views()
    ensures { (shape : Shape) (file : View) (before : History) (moment : Moment) (cut : Cut)
        → IsLegal shape file (moment ∷ before) → is_edit moment.event.act ≡ false
        → IsClosedCut (world_of shape file (moment ∷ before)) cut
        → IsSameViewIn (scene_of shape file before) (scene_of shape file (moment ∷ before)) cut
        (cut_before moment.event.act moment.landed cut) }
{}

/// An edit that fits leaves each view without the edited page. Each other view after it is one
/// before it, which showed the page as it was edited, with the page's new content.
pub fn edits_change_views_by_their_page()
    ensures without { (shape : Shape) (file : View) (before : History) (owner page : ℕ) (edit : Edit) (landed : Bool) (content : Page) (cut : Cut)
        → IsCutAfterEdit (scene_of shape file before) owner page edit landed content cut → cut page ≡ false
        → IsSameViewIn (scene_of shape file before) (after_edit (scene_of shape file before) owner page edit landed) cut
        (drafted_in (world_of shape file before) cut) }
    ensures with { (shape : Shape) (file : View) (before : History) (owner page : ℕ) (edit : Edit) (landed : Bool) (content : Page) (cut : Cut)
        → IsCutAfterEdit (scene_of shape file before) owner page edit landed content cut → cut page ≡ true
        → IsViewOfEditIn (scene_of shape file before) (after_edit (scene_of shape file before) owner page edit landed) page content cut }
{}

/// Each view that comes to hold an edited page sees the edit: it shows the page, and what is to be
/// written before it, as the newest pages do, and reaches no page that the edit wants named nowhere.
pub fn views_see_edits()
    ensures { (shape : Shape) (file : View) (before : History) (owner page : ℕ) (edit : Edit) (landed : Bool) (content : Page) (cut : Cut)
        → IsLegal shape file before
        → IsCutAfterEdit (scene_of shape file before) owner page edit landed content cut → cut page ≡ true
        → SeesEdit (scene_of shape file before) owner page (view_before (scene_of shape file before) cut) (stamps_before (scene_of shape file before) cut) }
{}

/// What an edit leans on, as a test of a page's content and stamps, is shown in each view that comes
/// to hold the edited page.
pub fn views_show_what_edits_lean_on()
    ensures { (shape : Shape) (file : View) (before : History) (owner page other : ℕ) (edit : Edit) (landed : Bool) (content : Page) (cut : Cut)
        → (passes : Option Page → Stamps → Bool)
        → IsCutAfterEdit (scene_of shape file before) owner page edit landed content cut → cut page ≡ true
        → IsShown (scene_of shape file before) owner page other (λ found stamps. passes found stamps ≡ true)
        → passes (view_before (scene_of shape file before) cut other) (stamps_before (scene_of shape file before) cut other) ≡ true }
{}

/// A page that is named nowhere, as an edit wants it, and that is no page inventory, is reached in
/// no view that comes to hold the edited page.
pub fn pages_named_nowhere_are_unreached()
    ensures { (shape : Shape) (file : View) (before : History) (owner page other : ℕ) (edit : Edit) (landed : Bool) (content : Page) (cut : Cut)
        → IsLegal shape file before
        → IsCutAfterEdit (scene_of shape file before) owner page edit landed content cut → cut page ≡ true
        → IsNamedNowhere (scene_of shape file before) owner page other → other ≢ 0 → IsNoInventory (scene_of shape file before) other
        → ¬ ReachesPage (view_before (scene_of shape file before) cut) other }
{}

/// The newest header has grown out of the one in the file.
pub fn headers_grow()
    ensures { (shape : Shape) (file : View) (history : History) → IsLegal shape file history
        → GrowsInto ((world_of shape file history).kept 0) (newest_of (world_of shape file history) 0) }
{}
