//! What an owner does in its own cache keeps the fit. These functions do nothing when they are run.

ghost use Rattle.std.specs.Prelude.{◌≡◌, ◌∷◌, ◌++◌, [], ℕ, Bool, true};
ghost use Rattle.fbc_kinds.specs.View.{View};
ghost use Rattle.fbc_kinds.specs.declared.edits.Edit.{Edit};
ghost use Rattle.fbc_kinds.specs.declared.shapes.Shape.{Shape};
ghost use Rattle.fbc_precedence.specs.Precedence.{pair_of};
ghost use Rattle.fbc_world.specs.World.{world_of};
ghost use Rattle.fbc_world.specs.History.{History, happens};
ghost use Rattle.fbc_world.specs.declared.events.Act.TheVariants as act;
ghost use Rattle.fbc_world.specs.declared.events.LocalEvent.TheVariants as local;
ghost use Rattle.fbc_legal.specs.Legal.{IsLegal};
ghost use Rattle.fbc_cache.specs.Cache.{CacheState, IsCache, is_granted_in, is_pinned_in};
ghost use Rattle.fbc_cache.specs.Edits.{MayEdit, page_after, with_edit};
ghost use Rattle.fbc_cache.specs.Use.{after_mark, after_pin, after_unpin};
ghost use Rattle.fbc_fit.specs.Fit.{Fits};

/// A page of which the grant was learnt is pinned.
pub fn pinned_pages_fit()
    ensures { (shape : Shape) (file : View) (history : History) (owner : ℕ) (c : CacheState) (page : ℕ) (landed : Bool)
        → Fits shape (world_of shape file history) owner c → is_granted_in c.held page ≡ true
        → Fits shape (world_of shape file (happens owner (act.Local (local.Pin page)) landed ∷ history)) owner (after_pin c page) }
{}

/// A page is pinned no more.
pub fn unpinned_pages_fit()
    ensures { (shape : Shape) (file : View) (history : History) (owner : ℕ) (c : CacheState) (page : ℕ) (landed : Bool)
        → Fits shape (world_of shape file history) owner c
        → Fits shape (world_of shape file (happens owner (act.Local (local.Unpin page)) landed ∷ history)) owner (after_unpin c page) }
{}

/// A further use of a pinned page, and the mark that somebody asks for a page, are no events.
pub fn uses_and_marks_are_no_events()
    ensures used { (shape : Shape) (file : View) (history : History) (owner : ℕ) (c : CacheState) (page : ℕ)
        → Fits shape (world_of shape file history) owner c → is_pinned_in c.held page ≡ true
        → Fits shape (world_of shape file history) owner (after_pin c page) }
    ensures marked { (shape : Shape) (file : View) (history : History) (owner : ℕ) (c : CacheState) (page : ℕ)
        → Fits shape (world_of shape file history) owner c → Fits shape (world_of shape file history) owner (after_mark c page) }
{}

/// A pair is recorded.
pub fn recorded_pairs_fit()
    ensures { (shape : Shape) (file : View) (history : History) (owner : ℕ) (c : CacheState) (high low : ℕ) (landed : Bool)
        → Fits shape (world_of shape file history) owner c
        → Fits shape (world_of shape file (happens owner (act.Local (local.Before high low)) landed ∷ history)) owner
        (record c { pairs = c.pairs ++ pair_of high low ∷ [] }) }
{}

/// A page is edited.
pub fn edited_pages_fit()
    ensures { (shape : Shape) (file : View) (history : History) (owner : ℕ) (c : CacheState) (page : ℕ) (edit : Edit) (landed : Bool)
        → IsLegal shape file (happens owner (act.Local (local.Edit page edit)) landed ∷ history) → IsCache c
        → Fits shape (world_of shape file history) owner c → MayEdit c page edit
        → Fits shape (world_of shape file (happens owner (act.Local (local.Edit page edit)) landed ∷ history)) owner
        (with_edit c page (page_after c page edit)) }
{}
