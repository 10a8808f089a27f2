//! What keeps the fit of a cache. These functions do nothing when they are run.

ghost use Rattle.std.specs.Prelude.{◌≡◌, ◌≢◌, ◌∷◌, ℕ, Bool, None, false, true, []};
ghost use Rattle.fbc_kinds.specs.View.{View};
ghost use Rattle.fbc_kinds.specs.declared.shapes.Shape.{Shape};
ghost use Rattle.fbc_levels.specs.declared.levels.Level.{Level};
ghost use Rattle.fbc_levels.specs.Resources.{page_resource};
ghost use Rattle.fbc_world.specs.World.{world_of};
ghost use Rattle.fbc_world.specs.History.{History, Moment, happens};
ghost use Rattle.fbc_world.specs.Owners.{is_alive};
ghost use Rattle.fbc_world.specs.declared.answers.Answer.TheVariants as answers;
ghost use Rattle.fbc_world.specs.declared.asks.Cause.{Cause};
ghost use Rattle.fbc_world.specs.declared.asks.Ask.TheVariants as ask;
ghost use Rattle.fbc_world.specs.declared.events.Act.TheVariants as act;
ghost use Rattle.fbc_legal.specs.Legal.{IsLegal};
ghost use Rattle.fbc_cache.specs.Cache.{CacheState};
ghost use Rattle.fbc_cache.specs.Takes.{after_take};
ghost use Rattle.fbc_cache.specs.Wants.{is_due};
ghost use Rattle.fbc_fit.specs.Fit.{Fits};

/// A cache that holds nothing fits where its owner comes.
pub fn new_caches_fit()
    ensures { (shape : Shape) (file : View) (history : History) (owner buffers name : ℕ) (landed : Bool)
        → IsLegal shape file (happens owner (act.Enter buffers name) landed ∷ history)
        → Fits shape (world_of shape file (happens owner (act.Enter buffers name) landed ∷ history)) owner
        (record { shape = shape; room = buffers; held = []; pairs = []; pointers = [] }) }
{}

/// What another owner does leaves the fit.
pub fn others_leave_the_fit()
    ensures { (shape : Shape) (file : View) (history : History) (moment : Moment) (owner : ℕ) (c : CacheState)
        → IsLegal shape file (moment ∷ history) → is_alive history owner ≡ true → moment.event.actor ≢ owner
        → Fits shape (world_of shape file history) owner c → Fits shape (world_of shape file (moment ∷ history)) owner c }
{}

/// The grant of a page that the cache waits for leaves the fit, before the cache learns of it.
pub fn late_grants_fit()
    ensures { (shape : Shape) (file : View) (history : History) (owner page : ℕ) (level : Level) (landed : Bool) (c : CacheState)
        → IsLegal shape file (happens owner (act.Grant (page_resource page) level) landed ∷ history)
        → Fits shape (world_of shape file history) owner c
        → Fits shape (world_of shape file (happens owner (act.Grant (page_resource page) level) landed ∷ history)) owner c }
{}

/// A page is written that was due: the cache after the answer fits.
pub fn written_pages_fit()
    ensures { (shape : Shape) (file : View) (history : History) (owner page : ℕ) (cause : Cause) (landed : Bool) (c : CacheState)
        → is_due c (ask.Write page cause) ≡ true → Fits shape (world_of shape file history) owner c
        → Fits shape (world_of shape file (happens owner (act.Write page cause false) landed ∷ history)) owner
        (after_take c (ask.Write page cause) answers.Written None) }
{}

/// A page is lowered where that was due: the cache after the answer fits.
pub fn lowered_pages_fit()
    ensures { (shape : Shape) (file : View) (history : History) (owner page : ℕ) (level : Level) (landed : Bool) (c : CacheState)
        → is_due c (ask.Lower (page_resource page) level) ≡ true → Fits shape (world_of shape file history) owner c
        → Fits shape (world_of shape file (happens owner (act.Lower (page_resource page) level) landed ∷ history)) owner
        (after_take c (ask.Lower (page_resource page) level) answers.Noted None) }
{}
