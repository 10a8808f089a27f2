//! Laws of journals: what a region adds keeps them legal. None of these functions does anything.

ghost use Rattle.std.specs.Prelude.{◌≡◌, ◌≢◌, ◌++◌, ◌∷◌, [], ℕ, Bool, List, Option, None, true, false};
ghost use Rattle.fbc_kinds.specs.View.{View};
ghost use Rattle.fbc_legal.specs.Legal.{IsLegal};
ghost use Rattle.fbc_levels.specs.LockState.{wait_of};
ghost use Rattle.fbc_levels.specs.declared.levels.Level.{Level};
ghost use Rattle.fbc_levels.specs.declared.resources.Resource.{Resource};
ghost use Rattle.fbc_levels.specs.declared.resources.Series.TheVariants as series;
ghost use Rattle.fbc_region.specs.Adding.{Adds, by};
ghost use Rattle.fbc_region.specs.Answering.{IsAsked};
ghost use Rattle.fbc_region.specs.Kept.{IsAtRest};
ghost use Rattle.fbc_region.specs.Lawful.{AreLandings, IsLawfulOver, MeetsGuards, ShowsView};
ghost use Rattle.fbc_region.specs.Shared.{history_of, locks_in};
ghost use Rattle.fbc_region.specs.Stepping.{Performs};
ghost use Rattle.fbc_world.specs.declared.answers.Answer.{Answer};
ghost use Rattle.fbc_world.specs.declared.answers.Answer.TheVariants as answers;
ghost use Rattle.fbc_world.specs.declared.asks.Ask.{Ask};
ghost use Rattle.fbc_world.specs.declared.asks.Ask.TheVariants as ask;
ghost use Rattle.fbc_world.specs.declared.events.Act.TheVariants as act;
ghost use Rattle.fbc_world.specs.declared.events.LocalEvent.{LocalEvent};
ghost use Rattle.fbc_world.specs.History.{Recording, recorded};
ghost use Rattle.fbc_world.specs.Owners.{is_alive};

/// A step keeps a journal legal and at rest, over each file and for each choice of which failed writes landed, where its local
/// events and its own event meet their guards. Its reaps and its grants then meet theirs.
pub fn steps_keep_journals_legal()
    ensures legal { (before after : Recording) (file : View) (landings new : List Bool) (who : ℕ) (events : List LocalEvent) (answer : Answer) (asked : Ask)
        → IsLegal before.shape file (history_of before landings) → IsAtRest (history_of before landings)
        → MeetsGuards before.shape file (history_of before landings) who events asked
        → Performs before after who events answer asked → AreLandings answer new
        → IsLegal after.shape file (history_of after (landings ++ new)) }
    ensures rests { (before after : Recording) (file : View) (landings new : List Bool) (who : ℕ) (events : List LocalEvent) (answer : Answer) (asked : Ask)
        → IsLegal before.shape file (history_of before landings) → IsAtRest (history_of before landings)
        → MeetsGuards before.shape file (history_of before landings) who events asked
        → Performs before after who events answer asked → AreLandings answer new
        → IsAtRest (history_of after (landings ++ new)) }
{}

/// The death of a living owner between two steps does so too.
pub fn deaths_keep_journals_legal()
    ensures legal { (before after : Recording) (file : View) (landings : List Bool) (owner : ℕ)
        → IsLegal before.shape file (history_of before landings) → IsAtRest (history_of before landings)
        → is_alive (recorded before) owner ≡ true → Adds before after (by owner act.Die ∷ [])
        → IsLegal after.shape file (history_of after landings) }
    ensures rests { (before after : Recording) (file : View) (landings : List Bool) (owner : ℕ)
        → IsLegal before.shape file (history_of before landings) → IsAtRest (history_of before landings)
        → is_alive (recorded before) owner ≡ true → Adds before after (by owner act.Die ∷ [])
        → IsAtRest (history_of after landings) }
{}

/// And so does the opening of the file while nobody is alive.
pub fn openings_keep_journals_legal()
    ensures legal { (before after : Recording) (file : View) (landings : List Bool) (locks : ℕ)
        → IsLegal before.shape file (history_of before landings) → IsAtRest (history_of before landings)
        → ((owner : ℕ) → is_alive (recorded before) owner ≡ false) → Adds before after (by 0 (act.Opened locks) ∷ [])
        → IsLegal after.shape file (history_of after landings) }
    ensures rests { (before after : Recording) (file : View) (landings : List Bool) (locks : ℕ)
        → IsLegal before.shape file (history_of before landings) → IsAtRest (history_of before landings)
        → ((owner : ℕ) → is_alive (recorded before) owner ≡ false) → Adds before after (by 0 (act.Opened locks) ∷ [])
        → IsAtRest (history_of after landings) }
{}

/// A journal without events is lawful over each file that the bytes show.
pub fn empty_journals_are_lawful()
    ensures { (size : ℕ) (bytes : Option (List ℕ)) (journal : Recording) (file : View) (landings : List Bool)
        → journal.events ≡ [] → size ≡ journal.shape.size → ShowsView journal.shape bytes file
        → IsLawfulOver size bytes journal file landings }
{}

/// Nobody dies or goes by a step, the one that takes it included, but by leaving and by a write that fails.
pub fn steps_leave_owners_alive()
    ensures { (before after : Recording) (who : ℕ) (events : List LocalEvent) (answer : Answer) (asked : Ask)
        → Performs before after who events answer asked → asked ≢ ask.Leave → answer ≢ answers.WriteFault
        → (owner : ℕ) → is_alive (recorded before) owner ≡ true → is_alive (recorded after) owner ≡ true }
{}

/// An ask for a page is never answered with a circle, where its owner waits for nothing.
pub fn page_asks_meet_no_circle()
    ensures { (before after : Recording) (owner : ℕ) (resource : Resource) (level : Level) (wait : Bool) (word : ℕ) (answer : Answer) (circle : List ℕ)
        → wait_of (locks_in before) owner ≡ None → resource.series ≡ series.Page
        → IsAsked before after owner resource level wait word answer → answer ≢ answers.Deadlock circle }
{}
