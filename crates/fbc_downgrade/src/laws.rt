//! Laws of the serving of callbacks. They do nothing when they are run.

ghost use Rattle.std.specs.Prelude.{◌≡◌, ◌≤◌, ℕ, List, None, length};
ghost use Rattle.fbc_levels.specs.declared.resources.Callback.{Callback as ACallback};
ghost use Rattle.fbc_world.specs.declared.answers.Answer.TheVariants as answers;
ghost use Rattle.fbc_world.specs.declared.asks.Ask.{Ask as AnAsk};
ghost use Rattle.fbc_cache.specs.Cache.{CacheState, IsCache};
ghost use Rattle.fbc_cache.specs.Takes.{after_take};
ghost use Rattle.fbc_downgrade.specs.declared.serving.Serving.{Serving as AServing};
ghost use Rattle.fbc_downgrade.specs.declared.serving.Serving.TheVariants as servings;
ghost use Rattle.fbc_downgrade.specs.Ending.{HasDirtyBefore, Writes, WritesOrLowers, lowering_for};
ghost use Rattle.fbc_downgrade.specs.Serving.{IsKeep, IsServed, Serves};

/// A callback takes no more writes than there are dirty pages among its page and those that are to be written before it.
pub fn servings_take_few_writes()
    ensures { (c after : CacheState) (callback : ACallback) (pages : List ℕ) (count : ℕ) → IsCache c
        → HasDirtyBefore c callback.page pages → Writes callback c count after → count ≤ length pages }
{}

/// After each write of a callback that was served the callback is served still, by a further write or by the lowering. So it ends
/// with the lowering after the last of those writes; and after the lowering it is done.
pub fn servings_end_with_the_lowering()
    ensures goes_on { (c after : CacheState) (callback : ACallback) (count : ℕ) (serving : AServing) → IsCache c
        → IsServed c callback → Writes callback c count after → Serves after callback serving
        → (asked : AnAsk) × (serving ≡ servings.Must asked) × WritesOrLowers callback asked }
    ensures done { (c : CacheState) (callback : ACallback) (serving : AServing) → IsCache c
        → IsKeep callback.keep → Serves c callback (servings.Must (lowering_for callback))
        → Serves (after_take c (lowering_for callback) answers.Noted None) callback serving → serving ≡ servings.Done }
{}
