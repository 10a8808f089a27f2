//! What a cache learns from answers keeps the fit. These functions do nothing when they are run.

ghost use Rattle.std.specs.Prelude.{◌≡◌, ◌∷◌, ℕ, Bool, Some, None, false, true};
ghost use Rattle.fbc_kinds.specs.View.{View};
ghost use Rattle.fbc_kinds.specs.declared.pages.Page.{Page};
ghost use Rattle.fbc_kinds.specs.declared.shapes.Shape.{Shape};
ghost use Rattle.fbc_levels.specs.declared.levels.Level.{Level};
ghost use Rattle.fbc_levels.specs.declared.resources.Request.{Request};
ghost use Rattle.fbc_levels.specs.LockState.{wait_of};
ghost use Rattle.fbc_lock_table.specs.declared.answers.Asked.TheVariants as asked;
ghost use Rattle.fbc_lock_table.specs.Answers.{answer_to_ask};
ghost use Rattle.fbc_lock_table.specs.Effects.{after_ask};
ghost use Rattle.fbc_owner_queues.specs.Circles.{circle_from};
ghost use Rattle.std.specs.List.{list_any};
ghost use Rattle.fbc_buffers.specs.Holding.{is_waiting};
ghost use Rattle.fbc_levels.specs.Resources.{page_resource};
ghost use Rattle.fbc_world.specs.Locks.{locks_of};
ghost use Rattle.fbc_world.specs.PageCell.{kept};
ghost use Rattle.fbc_world.specs.World.{world_of};
ghost use Rattle.fbc_world.specs.History.{History, happens};
ghost use Rattle.fbc_world.specs.declared.answers.Answer.TheVariants as answers;
ghost use Rattle.fbc_world.specs.declared.asks.Ask.TheVariants as ask;
ghost use Rattle.fbc_world.specs.declared.events.Act.{Act};
ghost use Rattle.fbc_world.specs.declared.events.Act.TheVariants as act;
ghost use Rattle.fbc_legal.specs.Legal.{IsLegal};
ghost use Rattle.fbc_cache.specs.Cache.{CacheState, IsCache};
ghost use Rattle.fbc_cache.specs.Takes.{after_take};
ghost use Rattle.fbc_cache.specs.Wants.{is_due};
ghost use Rattle.fbc_fit.specs.After.{FitsAfter, with_ask, with_grant};
ghost use Rattle.fbc_fit.specs.Fit.{LeavesPages, WaitsForPages};

/// The lock of a page is granted at once: the ask, and its grant.
pub fn granted_locks_fit()
    ensures { (shape : Shape) (file : View) (history : History) (owner : ℕ) (c : CacheState)
        (page : ℕ) (level : Level) (wait first second : Bool) (word : ℕ)
        → IsLegal shape file (with_grant owner page level second (with_ask owner page level wait word first history))
        → is_due c (ask.Lock (page_resource page) level wait word) ≡ true → FitsAfter shape file history owner c
        → FitsAfter shape file (with_grant owner page level second (with_ask owner page level wait word first history)) owner
        (after_take c (ask.Lock (page_resource page) level wait word) answers.Granted None) }
{}

/// The lock of a page is waited for: by an owner that waited for nothing, so that it closes no circle, or else without a circle.
pub fn queued_locks_fit()
    ensures free { (shape : Shape) (file : View) (history : History) (owner : ℕ) (c : CacheState)
        (page : ℕ) (level : Level) (wait first : Bool) (word : ℕ)
        → answer_to_ask (locks_of history) owner (page_resource page) level wait ≡ asked.Queued
        → wait_of (locks_of history) owner ≡ None
        → is_due c (ask.Lock (page_resource page) level wait word) ≡ true → FitsAfter shape file history owner c
        → FitsAfter shape file (with_ask owner page level wait word first history) owner
        (after_take c (ask.Lock (page_resource page) level wait word) answers.Queued None) }
    ensures uncircled { (shape : Shape) (file : View) (history : History) (owner : ℕ) (c : CacheState)
        (page : ℕ) (level : Level) (wait first : Bool) (word : ℕ)
        → answer_to_ask (locks_of history) owner (page_resource page) level wait ≡ asked.Queued
        → circle_from (after_ask (locks_of history) owner (page_resource page) level word asked.Queued) owner ≡ None
        → is_due c (ask.Lock (page_resource page) level wait word) ≡ true → FitsAfter shape file history owner c
        → FitsAfter shape file (with_ask owner page level wait word first history) owner
        (after_take c (ask.Lock (page_resource page) level wait word) answers.Queued None) }
{}

/// A look that tells that nothing is waited for any more.
pub fn looks_that_grant_fit()
    ensures { (shape : Shape) (file : View) (history : History) (owner : ℕ) (c : CacheState) (landed : Bool)
        → wait_of (locks_of history) owner ≡ None → FitsAfter shape file history owner c
        → FitsAfter shape file (happens owner act.Look landed ∷ history) owner
        (after_take c ask.Look answers.Granted None) }
{}

/// A withdrawal: nothing is waited for any more, or it was granted before.
pub fn withdrawals_fit()
    ensures withdrawn { (shape : Shape) (file : View) (history : History) (owner : ℕ) (c : CacheState) (wait : Request) (landed : Bool)
        → wait_of (locks_of history) owner ≡ Some wait → WaitsForPages (world_of shape file history) owner
        → IsCache c → FitsAfter shape file history owner c
        → FitsAfter shape file (happens owner act.Withdraw landed ∷ history) owner
        (after_take c ask.Withdraw answers.Noted None) }
    ensures granted { (shape : Shape) (file : View) (history : History) (owner : ℕ) (c : CacheState) (landed : Bool)
        → wait_of (locks_of history) owner ≡ None → FitsAfter shape file history owner c
        → FitsAfter shape file (happens owner act.Withdraw landed ∷ history) owner
        (after_take c ask.Withdraw answers.Granted None) }
{}

/// A page is read: what the file keeps of it, or nothing where its bytes spell no page or the read failed.
pub fn read_pages_fit()
    ensures shown { (shape : Shape) (file : View) (history : History) (owner : ℕ) (c : CacheState) (page length : ℕ) (content : Page) (landed : Bool)
        → kept shape file history page ≡ Some content → is_due c (ask.Read page) ≡ true → FitsAfter shape file history owner c
        → FitsAfter shape file (happens owner (act.Read page false) landed ∷ history) owner
        (after_take c (ask.Read page) (answers.PageIs length) (Some content)) }
    ensures damaged { (shape : Shape) (file : View) (history : History) (owner : ℕ) (c : CacheState) (page : ℕ) (landed : Bool)
        → kept shape file history page ≡ None → is_due c (ask.Read page) ≡ true → FitsAfter shape file history owner c
        → FitsAfter shape file (happens owner (act.Read page false) landed ∷ history) owner c }
    ensures failed { (shape : Shape) (file : View) (history : History) (owner : ℕ) (c : CacheState) (page : ℕ) (landed : Bool)
        → is_due c (ask.Read page) ≡ true → FitsAfter shape file history owner c
        → FitsAfter shape file (happens owner (act.Read page true) landed ∷ history) owner
        (after_take c (ask.Read page) answers.ReadFault None) }
{}

/// What the owner asks of no page, and what is refused, leaves the fit.
pub fn other_acts_leave_the_fit()
    ensures { (shape : Shape) (file : View) (history : History) (owner : ℕ) (c : CacheState) (done : Act) (landed : Bool)
        → LeavesPages (world_of shape file history) owner done → FitsAfter shape file history owner c
        → FitsAfter shape file (happens owner done landed ∷ history) owner c }
{}

/// A withdrawal of what is no page, where no page is waited for, leaves the cache, and the fit.
pub fn other_withdrawals_leave_the_fit()
    ensures { (shape : Shape) (file : View) (history : History) (owner : ℕ) (c : CacheState) (landed : Bool)
        → list_any is_waiting c.held ≡ false → FitsAfter shape file history owner c
        → FitsAfter shape file (happens owner act.Withdraw landed ∷ history) owner
        (after_take c ask.Withdraw answers.Noted None) }
{}
