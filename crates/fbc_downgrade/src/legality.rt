//! Callbacks are served legally. These functions do nothing when they are run.

ghost use Rattle.std.specs.Prelude.{ℕ};
ghost use Rattle.fbc_kinds.specs.View.{View};
ghost use Rattle.fbc_kinds.specs.declared.shapes.Shape.{Shape};
ghost use Rattle.fbc_levels.specs.declared.levels.Level.{Level as ALevel};
ghost use Rattle.fbc_levels.specs.declared.resources.Callback.{Callback as ACallback};
ghost use Rattle.fbc_levels.specs.declared.resources.Resource.{Resource};
ghost use Rattle.fbc_world.specs.History.{History};
ghost use Rattle.fbc_world.specs.declared.asks.Ask.TheVariants as ask;
ghost use Rattle.fbc_world.specs.declared.asks.Cause.{Cause as ACause};
ghost use Rattle.fbc_legal.specs.Guards.{GuardOfLower, GuardOfWrite};
ghost use Rattle.fbc_legal.specs.Legal.{IsLegal};
ghost use Rattle.fbc_legal.specs.Scene.{scene_of};
ghost use Rattle.fbc_cache.specs.Cache.{CacheState};
ghost use Rattle.fbc_downgrade.specs.declared.serving.Serving.TheVariants as servings;
ghost use Rattle.fbc_downgrade.specs.Ending.{Writes};
ghost use Rattle.fbc_downgrade.specs.Histories.{MayServe, ServesOver};
ghost use Rattle.fbc_downgrade.specs.Serving.{Serves};

use fbc_fit::{
    given_up_pages_are_lowered_legally, given_up_pages_are_written_legally, late_grants_fit,
    other_acts_leave_the_fit, others_leave_the_fit, written_pages_fit,
};

/// The write that a callback comes to is legal, with the callback as its cause; and so is the lowering.
pub fn servings_are_legal()
    ensures writes { (shape : Shape) (file : View) (history : History) (owner : ℕ) (callback : ACallback) (c : CacheState) (page : ℕ) (cause : ACause)
        → IsLegal shape file history → MayServe shape file owner callback history c → Serves c callback (servings.Must (ask.Write page cause))
        → GuardOfWrite (scene_of shape file history) owner page cause }
    ensures lowerings { (shape : Shape) (file : View) (history : History) (owner : ℕ) (callback : ACallback)
        (c : CacheState) (resource : Resource) (level : ALevel)
        → IsLegal shape file history → MayServe shape file owner callback history c
        → Serves c callback (servings.Must (ask.Lower resource level)) → GuardOfLower (scene_of shape file history) owner resource level }
{
    given_up_pages_are_written_legally();
    given_up_pages_are_lowered_legally();
}

/// As long as a callback is served, while others act and what its owner waits for is granted, it may be served further. Its writes are
/// those that the cache gives in turn, so there are no more of them than dirty pages among the page and those that are to be written
/// before it.
pub fn servings_go_on_over_histories()
    ensures served { (shape : Shape) (file : View) (history later : History) (owner : ℕ) (callback : ACallback) (c after : CacheState) (count : ℕ)
        → IsLegal shape file later → ServesOver owner callback history c count later after
        → MayServe shape file owner callback history c → MayServe shape file owner callback later after }
    ensures in_turn { (history later : History) (owner : ℕ) (callback : ACallback) (c after : CacheState) (count : ℕ)
        → ServesOver owner callback history c count later after → Writes callback c count after }
{
    written_pages_fit();
    others_leave_the_fit();
    late_grants_fit();
    other_acts_leave_the_fit();
}
