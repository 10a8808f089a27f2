//! What is due when a page is called back.

ghost use Rattle.std.specs.Prelude.{◌≡◌, ◌↔◌, true};
ghost use Rattle.fbc_cache.specs.Cache.{is_pinned_in};
ghost use Rattle.fbc_downgrade.specs.declared.serving.Serving.TheVariants as servings;
ghost use Rattle.fbc_downgrade.specs.Serving.{IsDueServing, IsKeep, IsPassedOver, Serves, after_serve, is_above};

use fbc_cache::Cache;
use fbc_levels::{Callback, Level, number};
use fbc_world::{Ask, Cause};

/// What the serving of a callback comes to.
#[derive(Debug, Drop)]
pub enum Serving {
    /// The page is in use: it is marked.
    Later,
    /// Nothing is due.
    Done,
    /// This step is due next.
    Must(Ask),
}

/// Serves a callback: the next write in order, as long as the page or one that is to be written before it is dirty, and then the
/// lowering to the level that may be kept. A page in use is marked and left. One that is held in no higher level, or of which no
/// grant was learnt, is done.
pub fn serve(cache: &mut Cache, callback: Callback) -> Serving
    ensures serves { Serves cache.old callback result }
    ensures after { cache.new ≡ after_serve cache.old callback }
    ensures later { (result ≡ servings.Later) ↔ (is_pinned_in cache.old.held callback.page ≡ true) }
    ensures done { (result ≡ servings.Done) ↔ IsPassedOver cache.old callback }
    ensures due { IsKeep callback.keep → IsDueServing cache.old result }
{
    if cache.pinned(callback.page) {
        cache.mark_blocking(callback);
        return Serving::Later;
    }
    if !is_above(cache.level(callback.page), callback.keep) {
        return Serving::Done;
    }
    cache.holds();
    let cause = Cause::CallbackOf {
        asker: callback.asker,
    };
    Serving::Must(cache.step_to_give_up(callback.page, cause, callback.keep))
}

/// Whether the first level gives more than the second.
fn is_above(level: Level, keep: Level) -> bool
    ensures { result ≡ is_above level keep }
{
    number(level) > number(keep)
}
