//! A cache that fits before its owner's step fits behind it, once it has taken the answer. These functions do nothing when they are run.

ghost use Rattle.std.specs.Prelude.{◌≡◌, ◌*◌, ℕ, Bool, List, Option, Some, None, length};
ghost use Rattle.fbc_kinds.specs.View.{View};
ghost use Rattle.fbc_kinds.specs.declared.pages.Page.{Page};
ghost use Rattle.fbc_kinds.specs.declared.rules.Rule.{Rule};
ghost use Rattle.fbc_kinds.specs.File.{ShowsPage};
ghost use Rattle.fbc_kinds.specs.Limits.{IsPageSize};
ghost use Rattle.fbc_kinds.specs.Spelling.{first_broken_rule};
ghost use Rattle.fbc_levels.specs.declared.levels.Level.{Level};
ghost use Rattle.fbc_levels.specs.declared.resources.Resource.{Resource};
ghost use Rattle.fbc_world.specs.declared.answers.Answer.{Answer};
ghost use Rattle.fbc_world.specs.declared.answers.Answer.TheVariants as answers;
ghost use Rattle.fbc_world.specs.declared.asks.Ask.{Ask};
ghost use Rattle.fbc_world.specs.declared.asks.Ask.TheVariants as ask;
ghost use Rattle.fbc_world.specs.declared.asks.Cause.{Cause};
ghost use Rattle.fbc_world.specs.declared.events.LocalEvent.{LocalEvent};
ghost use Rattle.fbc_world.specs.History.{History, Recording};
ghost use Rattle.fbc_world.specs.Locks.{locks_of};
ghost use Rattle.fbc_region.specs.Lawful.{IsLawfulOver, with_locals};
ghost use Rattle.fbc_region.specs.Shared.{history_of};
ghost use Rattle.fbc_region.specs.Stepping.{IsPageRead};
ghost use Rattle.fbc_cache.specs.Cache.{CacheState, IsCache};
ghost use Rattle.fbc_cache.specs.Takes.{Takes};
ghost use Rattle.fbc_fit.specs.After.{FitsAfter};
ghost use Rattle.fbc_fit.specs.Answered.{AskScene, FitsTaken, IsAnsweredOver, IsBystander, IsHeldUp, IsRefusal, IsSupposed, ShowsKept, WaitsForOne, before_ask};

/// A lock that is granted at once: of a page, or of what is none.
pub fn granted_lock_steps_fit()
    ensures { (at : AskScene) (c : CacheState) (later : History) (resource : Resource) (level : Level) (wait : Bool) (word : ℕ)
        → IsAnsweredOver at c (ask.Lock resource level wait word) answers.Granted later
        → FitsTaken at c (ask.Lock resource level wait word) answers.Granted None later }
{}

/// A lock that is waited for.
pub fn queued_lock_steps_fit()
    ensures { (at : AskScene) (c : CacheState) (later : History) (resource : Resource) (level : Level) (wait : Bool) (word : ℕ)
        → IsAnsweredOver at c (ask.Lock resource level wait word) answers.Queued later
        → FitsTaken at c (ask.Lock resource level wait word) answers.Queued None later }
{}

/// A lock that is refused. Where a dead owner is taken away in place of the ask, the grants that this causes are others' or late.
pub fn refused_lock_steps_fit()
    ensures { (at : AskScene) (c : CacheState) (later : History) (resource : Resource) (level : Level) (wait : Bool) (word : ℕ)
        (answer : Answer) → IsRefusal answer → IsAnsweredOver at c (ask.Lock resource level wait word) answer later
        → FitsTaken at c (ask.Lock resource level wait word) answer None later }
{}

/// A lock that would close a circle of waits. None of a page does.
pub fn deadlock_steps_fit()
    ensures { (at : AskScene) (c : CacheState) (later : History) (resource : Resource) (level : Level) (wait : Bool) (word : ℕ)
        (circle : List ℕ) → IsAnsweredOver at c (ask.Lock resource level wait word) (answers.Deadlock circle) later
        → FitsTaken at c (ask.Lock resource level wait word) (answers.Deadlock circle) None later }
{}

/// A look of an owner that is held up where it waits.
pub fn look_steps_fit()
    ensures { (at : AskScene) (c : CacheState) (later : History) (answer : Answer) → IsHeldUp (locks_of (before_ask at)) at.who
        → IsAnsweredOver at c ask.Look answer later → FitsTaken at c ask.Look answer None later }
{}

/// A withdrawal, of a page, of what is none, or of what was granted before.
pub fn withdrawal_steps_fit()
    ensures { (at : AskScene) (c : CacheState) (later : History) (answer : Answer)
        → IsCache c → WaitsForOne (locks_of (before_ask at)) at.who c
        → IsAnsweredOver at c ask.Withdraw answer later → FitsTaken at c ask.Withdraw answer None later }
{}

/// A lowering, and the grants that it causes.
pub fn lowering_steps_fit()
    ensures { (at : AskScene) (c : CacheState) (later : History) (resource : Resource) (level : Level)
        → IsAnsweredOver at c (ask.Lower resource level) answers.Noted later
        → FitsTaken at c (ask.Lower resource level) answers.Noted None later }
{}

/// A page is read whose image shows what is kept: a page, or none, which the cache does not take; or the read fails.
pub fn read_steps_fit()
    ensures shown { (at : AskScene) (c : CacheState) (later : History) (page length : ℕ) (image : List ℕ) (content : Page)
        → ShowsKept at.shape at.file (before_ask at) page image → ShowsPage at.shape page image content
        → IsAnsweredOver at c (ask.Read page) (answers.PageIs length) later
        → FitsTaken at c (ask.Read page) (answers.PageIs length) (Some content) later }
    ensures damaged { (at : AskScene) (c : CacheState) (later : History) (page length : ℕ) (image : List ℕ) (rule : Rule)
        → ShowsKept at.shape at.file (before_ask at) page image → first_broken_rule at.shape page image ≡ Some rule
        → IsAnsweredOver at c (ask.Read page) (answers.PageIs length) later → FitsAfter at.shape at.file later at.who c }
    ensures failed { (at : AskScene) (c : CacheState) (later : History) (page : ℕ)
        → IsAnsweredOver at c (ask.Read page) answers.ReadFault later → FitsTaken at c (ask.Read page) answers.ReadFault None later }
{}

/// A page is written. An owner whose write fails is dead.
pub fn write_steps_fit()
    ensures { (at : AskScene) (c : CacheState) (later : History) (page : ℕ) (cause : Cause)
        → IsAnsweredOver at c (ask.Write page cause) answers.Written later
        → FitsTaken at c (ask.Write page cause) answers.Written None later }
{}

/// A poll, a question for the least data word, and a note are of no page.
pub fn other_steps_fit()
    ensures { (at : AskScene) (c : CacheState) (later : History) (asked : Ask) (answer : Answer)
        → IsBystander asked → IsAnsweredOver at c asked answer later → FitsTaken at c asked answer None later }
{}

/// The image of a page that was read over a lawful journal shows what is kept of it before the ask.
pub fn images_of_reads_show_what_is_kept()
    ensures { (size page count who : ℕ) (bytes : Option (List ℕ)) (journal : Recording) (file : View) (landings : List Bool)
        (events : List LocalEvent) (image : List ℕ)
        → IsPageSize size → IsLawfulOver size bytes journal file landings → length image ≡ size
        → IsPageRead bytes (page * size) image count
        → ShowsKept journal.shape file (with_locals (history_of journal landings) who events) page image }
{}

/// Whatever an owner asks and is answered that it lives through: the cache that has taken the answer fits the history behind the step.
pub fn taken_answers_fit()
    ensures { (at : AskScene) (c after : CacheState) (later : History) (asked : Ask) (answer : Answer) (image : List ℕ)
        → IsAnsweredOver at c asked answer later → IsSupposed at c asked answer image → Takes c after asked answer image
        → FitsAfter at.shape at.file later at.who after }
{}
