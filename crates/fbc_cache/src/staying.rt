//! A law of caches. It does nothing when it is run.

ghost use Rattle.std.specs.Prelude.{◌≡◌, ℕ, Option, true, is_some};
ghost use Rattle.fbc_kinds.specs.declared.pages.Page.{Page as APage};
ghost use Rattle.fbc_world.specs.declared.answers.Answer.{Answer as AnAnswer};
ghost use Rattle.fbc_world.specs.declared.asks.Ask.{Ask as AnAsk};
ghost use Rattle.fbc_cache.specs.Cache.{CacheState, IsCache, copy_in, is_pinned_in, level_in};
ghost use Rattle.fbc_cache.specs.Takes.{after_take};

/// A pinned page stays through every answer, in its level, and with its copy.
pub fn pinned_pages_stay()
    ensures pinned { (c : CacheState) (asked : AnAsk) (answer : AnAnswer) (shown : Option APage) (page : ℕ) → IsCache c
        → is_pinned_in c.held page ≡ true → is_pinned_in (after_take c asked answer shown).held page ≡ true }
    ensures level { (c : CacheState) (asked : AnAsk) (answer : AnAnswer) (shown : Option APage) (page : ℕ) → IsCache c
        → is_pinned_in c.held page ≡ true → level_in (after_take c asked answer shown).held page ≡ level_in c.held page }
    ensures copy { (c : CacheState) (asked : AnAsk) (answer : AnAnswer) (shown : Option APage) (page : ℕ) → IsCache c
        → is_pinned_in c.held page ≡ true → is_some (copy_in c.held page) ≡ true → copy_in (after_take c asked answer shown).held page ≡ copy_in c.held page }
{}
