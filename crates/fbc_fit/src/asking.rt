//! What a cache that fits asks for, and does, is legal as far as a cache can know. These functions do nothing when they are run.

ghost use Rattle.std.specs.Prelude.{◌≡◌, ℕ, Bool, true, is_some};
ghost use Rattle.fbc_kinds.specs.View.{View};
ghost use Rattle.fbc_kinds.specs.declared.edits.Edit.{Edit};
ghost use Rattle.fbc_kinds.specs.declared.shapes.Shape.{Shape};
ghost use Rattle.fbc_levels.specs.declared.levels.Level.{Level};
ghost use Rattle.fbc_levels.specs.declared.levels.Level.TheVariants.{Ex};
ghost use Rattle.fbc_precedence.specs.Precedence.{ComesBefore};
ghost use Rattle.fbc_levels.specs.Resources.{page_resource};
ghost use Rattle.fbc_world.specs.World.{page_after, world_of};
ghost use Rattle.fbc_world.specs.History.{History};
ghost use Rattle.fbc_world.specs.declared.asks.Ask.TheVariants as ask;
ghost use Rattle.fbc_legal.specs.Guards.{GuardOfBefore, GuardOfPageAsk, GuardOfPin, GuardOfRead, HasBase, IsFreeToAct};
ghost use Rattle.fbc_legal.specs.Legal.{IsLegal};
ghost use Rattle.fbc_legal.specs.Scene.{HasExclusive, scene_of};
ghost use Rattle.fbc_cache.specs.Cache.{CacheState, IsCache, is_granted_in, level_in};
ghost use Rattle.fbc_cache.specs.Edits.{MayEdit, needs_pair};
ghost use Rattle.fbc_cache.specs.Wants.{is_due};
ghost use Rattle.fbc_fit.specs.Fit.{Fits, IsBased, WaitsForPages};

/// Where the lock of a page is due, an owner that waits for no number and no relation waits for nothing; it has no request for the
/// page, and room for it. Whether it waits upward is no matter of the cache.
pub fn due_locks_are_free_to_be_asked()
    ensures free { (shape : Shape) (file : View) (history : History) (owner : ℕ) (c : CacheState) (page : ℕ) (level : Level) (wait : Bool) (word : ℕ)
        → Fits shape (world_of shape file history) owner c → WaitsForPages (world_of shape file history) owner
        → is_due c (ask.Lock (page_resource page) level wait word) ≡ true → IsFreeToAct (scene_of shape file history) owner }
    ensures asked { (shape : Shape) (file : View) (history : History) (owner : ℕ) (c : CacheState) (page : ℕ) (level : Level) (wait : Bool) (word : ℕ)
        → IsLegal shape file history → Fits shape (world_of shape file history) owner c
        → is_due c (ask.Lock (page_resource page) level wait word) ≡ true → GuardOfPageAsk (scene_of shape file history) owner page }
{}

/// A read that is due is legal.
pub fn due_reads_are_legal()
    ensures { (shape : Shape) (file : View) (history : History) (owner : ℕ) (c : CacheState) (page : ℕ)
        → IsCache c → Fits shape (world_of shape file history) owner c
        → is_due c (ask.Read page) ≡ true → GuardOfRead (scene_of shape file history) owner page }
{}

/// A page of which the grant was learnt is pinned legally by an owner that waits for nothing.
pub fn held_pages_are_pinned_legally()
    ensures { (shape : Shape) (file : View) (history : History) (owner : ℕ) (c : CacheState) (page : ℕ)
        → IsCache c → Fits shape (world_of shape file history) owner c → IsFreeToAct (scene_of shape file history) owner
        → is_granted_in c.held page ≡ true → GuardOfPin (scene_of shape file history) owner page }
{}

/// Where a cache may edit a page, its owner has it pinned in EX, and the edit fits the page as the owner has it, and has its base, if a
/// format carries the page's number.
pub fn edits_are_made_under_locks()
    ensures exclusive { (shape : Shape) (file : View) (history : History) (owner : ℕ) (c : CacheState) (page : ℕ) (edit : Edit)
        → IsCache c → Fits shape (world_of shape file history) owner c → MayEdit c page edit → HasExclusive (scene_of shape file history) owner page }
    ensures pinned { (shape : Shape) (file : View) (history : History) (owner : ℕ) (c : CacheState) (page : ℕ) (edit : Edit)
        → Fits shape (world_of shape file history) owner c → MayEdit c page edit → (world_of shape file history).is_pinned owner page ≡ true }
    ensures fits { (shape : Shape) (file : View) (history : History) (owner : ℕ) (c : CacheState) (page : ℕ) (edit : Edit)
        → IsLegal shape file history → IsCache c → Fits shape (world_of shape file history) owner c → MayEdit c page edit
        → is_some (page_after shape (world_of shape file history) owner page edit) ≡ true }
    ensures base { (shape : Shape) (file : View) (history : History) (owner : ℕ) (c : CacheState) (page : ℕ) (edit : Edit)
        → Fits shape (world_of shape file history) owner c → MayEdit c page edit → IsBased page edit
        → HasBase (scene_of shape file history) owner page edit }
{}

/// A pair that an edit of the page needs is recorded legally, where the page does not stand before the high one already.
pub fn needed_pairs_are_legal()
    ensures { (shape : Shape) (file : View) (history : History) (owner : ℕ) (c : CacheState) (page high : ℕ)
        → IsLegal shape file history → IsCache c → Fits shape (world_of shape file history) owner c → IsFreeToAct (scene_of shape file history) owner
        → level_in c.held page ≡ Ex → needs_pair c.held page high ≡ true → ¬ ComesBefore c.pairs page high
        → GuardOfBefore (scene_of shape file history) owner high page }
{}
