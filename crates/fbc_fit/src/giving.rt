//! The steps by which a cache that fits gives a page up are legal, and so are those that a want gives. These functions do nothing when
//! they are run.

ghost use Rattle.std.specs.Prelude.{◌≡◌, ℕ, true};
ghost use Rattle.fbc_kinds.specs.View.{View};
ghost use Rattle.fbc_kinds.specs.declared.shapes.Shape.{Shape};
ghost use Rattle.fbc_levels.specs.declared.levels.Level.{Level};
ghost use Rattle.fbc_levels.specs.declared.resources.Resource.{Resource};
ghost use Rattle.fbc_levels.specs.Resources.{page_resource};
ghost use Rattle.fbc_world.specs.World.{world_of};
ghost use Rattle.fbc_world.specs.History.{History};
ghost use Rattle.fbc_world.specs.declared.asks.Cause.{Cause};
ghost use Rattle.fbc_world.specs.declared.asks.Ask.TheVariants as ask;
ghost use Rattle.fbc_legal.specs.Causes.{IsCauseFor, MeetsLowering};
ghost use Rattle.fbc_legal.specs.Guards.{GuardOfLower, GuardOfWrite};
ghost use Rattle.fbc_legal.specs.Legal.{IsLegal};
ghost use Rattle.fbc_legal.specs.Scene.{scene_of};
ghost use Rattle.fbc_buffers.specs.Holding.{IsHolding};
ghost use Rattle.fbc_cache.specs.declared.needs.Need.{Need};
ghost use Rattle.fbc_cache.specs.declared.needs.Want.TheVariants as wants;
ghost use Rattle.fbc_cache.specs.Cache.{CacheState, IsCache};
ghost use Rattle.fbc_cache.specs.Giving.{GivesUp};
ghost use Rattle.fbc_cache.specs.Wants.{MayGiveUp, MayWant, Wants, is_due};
ghost use Rattle.fbc_fit.specs.Fit.{Fits};

/// The write of a page that is to be written before one that is given up, or of this one, is legal, if there is a cause to write the
/// page that is given up.
pub fn given_up_pages_are_written_legally()
    ensures { (shape : Shape) (file : View) (history : History) (owner : ℕ) (c : CacheState) (page next : ℕ) (cause : Cause) (level : Level)
        → IsLegal shape file history → IsCache c → Fits shape (world_of shape file history) owner c
        → GivesUp c page cause level (ask.Write next cause) → IsCauseFor (scene_of shape file history) owner page cause
        → GuardOfWrite (scene_of shape file history) owner next cause }
{}

/// The lowering of a page that is given up, or held in a lower level, is legal, if there is a reason for that level.
pub fn given_up_pages_are_lowered_legally()
    ensures { (shape : Shape) (file : View) (history : History) (owner : ℕ) (c : CacheState) (page : ℕ) (cause : Cause) (level : Level)
        → IsLegal shape file history → IsCache c → Fits shape (world_of shape file history) owner c → MayGiveUp c page level
        → GivesUp c page cause level (ask.Lower (page_resource page) level) → MeetsLowering (scene_of shape file history) owner page level
        → GuardOfLower (scene_of shape file history) owner (page_resource page) level }
{}

/// A lowering of a page that is due is legal, if there is a reason for that level.
pub fn due_lowerings_are_legal()
    ensures { (shape : Shape) (file : View) (history : History) (owner : ℕ) (c : CacheState) (page : ℕ) (level : Level)
        → IsLegal shape file history → IsCache c → Fits shape (world_of shape file history) owner c
        → is_due c (ask.Lower (page_resource page) level) ≡ true → MeetsLowering (scene_of shape file history) owner page level
        → GuardOfLower (scene_of shape file history) owner (page_resource page) level }
{}

/// The write that a want gives is legal: the cache is full, and the page that is wanted has no buffer.
pub fn wanted_writes_are_legal()
    ensures { (shape : Shape) (file : View) (history : History) (owner : ℕ) (c : CacheState) (need : Need) (next : ℕ) (cause : Cause)
        → IsLegal shape file history → IsCache c → Fits shape (world_of shape file history) owner c
        → Wants c need (wants.Must (ask.Write next cause)) → GuardOfWrite (scene_of shape file history) owner next cause }
{}

/// The lowering that a want gives is legal: the page itself is given up for a higher level, or the one that gives its buffer up is.
pub fn wanted_lowerings_are_legal()
    ensures { (shape : Shape) (file : View) (history : History) (owner : ℕ) (c : CacheState) (need : Need) (resource : Resource) (level : Level)
        → IsLegal shape file history → IsCache c → IsHolding (record { room = c.room; held = c.held })
        → Fits shape (world_of shape file history) owner c → MayWant c need
        → Wants c need (wants.Must (ask.Lower resource level)) → GuardOfLower (scene_of shape file history) owner resource level }
{}
