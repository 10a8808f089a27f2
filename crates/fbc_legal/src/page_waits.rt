//! Laws of pins and of waits, which hold after every legal history over any file. None of these
//! functions does anything.

ghost use Rattle.std.specs.Prelude.{◌≡◌, ◌∷◌, ◌⊎◌, ℕ, Bool, List, None, Some, true};
ghost use Rattle.fbc_kinds.specs.View.{View};
ghost use Rattle.fbc_kinds.specs.declared.shapes.Shape.{Shape};
ghost use Rattle.fbc_legal.specs.Circles.{HasJustAsked, IsHeldOverPage, IsHeldUpBy};
ghost use Rattle.fbc_legal.specs.Legal.{IsLegal};
ghost use Rattle.fbc_legal.specs.Ranks.{WaitsUpward};
ghost use Rattle.fbc_legal.specs.Scene.{scene_of};
ghost use Rattle.fbc_levels.specs.LockState.{IsBlocked};
ghost use Rattle.fbc_levels.specs.Waits.{IsCircle};
ghost use Rattle.fbc_levels.specs.declared.levels.Level.{Level};
ghost use Rattle.fbc_levels.specs.declared.levels.Level.TheVariants as level;
ghost use Rattle.fbc_levels.specs.declared.resources.Resource.{Resource};
ghost use Rattle.fbc_lock_table.specs.Effects.{after_ask};
ghost use Rattle.fbc_lock_table.specs.declared.answers.Asked.TheVariants as asked;
ghost use Rattle.fbc_owner_queues.specs.Circles.{circle_from};
ghost use Rattle.fbc_world.specs.History.{History, happens};
ghost use Rattle.fbc_levels.specs.Resources.{page_resource};
ghost use Rattle.fbc_world.specs.Locks.{locks_of, waiting};
ghost use Rattle.fbc_world.specs.Owners.{granted, is_alive};
ghost use Rattle.fbc_world.specs.World.{world_of};
ghost use Rattle.fbc_world.specs.declared.events.Act.TheVariants.{Ask};

/// Who has a page pinned is alive, and has the page in PR or EX.
pub fn pins_are_held()
    ensures alive { (shape : Shape) (file : View) (history : History) (owner page : ℕ) → IsLegal shape file history
        → (world_of shape file history).is_pinned owner page ≡ true → is_alive history owner ≡ true }
    ensures level { (shape : Shape) (file : View) (history : History) (owner page : ℕ) → IsLegal shape file history
        → (world_of shape file history).is_pinned owner page ≡ true
        → (granted history owner (page_resource page) ≡ level.Pr) ⊎ (granted history owner (page_resource page) ≡ level.Ex) }
{}

/// A living owner that waits does so upward, by the ranks of the pages that it has pinned; and so does each
/// that another is in the way of. An ask in whose way nobody stands needs no such order, as its grant comes next.
pub fn waits_go_upward()
    ensures waits { (shape : Shape) (file : View) (history : History) (owner : ℕ) (resource : Resource) (wanted : Level) → IsLegal shape file history
        → is_alive history owner ≡ true → waiting history owner resource ≡ Some wanted
        → WaitsUpward (scene_of shape file history) owner resource ⊎ HasJustAsked history owner resource }
    ensures blocked { (shape : Shape) (file : View) (history : History) (owner : ℕ) (resource : Resource) (wanted : Level) → IsLegal shape file history
        → is_alive history owner ≡ true → waiting history owner resource ≡ Some wanted → IsBlocked (locks_of history) owner resource wanted
        → WaitsUpward (scene_of shape file history) owner resource }
{}

/// Owners that wait for pages never wait for each other in a circle.
pub fn page_waits_form_no_circle()
    ensures { (shape : Shape) (file : View) (history : History) (owners : List ℕ)
        → IsLegal shape file history
        → ¬ IsCircle (IsHeldOverPage (world_of shape file history)) owners }
{}

/// No owners wait for each other in a circle, over pages, numbers and relations mixed. A wait for a page counts where the other has
/// it pinned.
pub fn waits_form_no_circle()
    ensures { (shape : Shape) (file : View) (history : History) (owners : List ℕ)
        → IsLegal shape file history
        → ¬ IsCircle (IsHeldUpBy (world_of shape file history)) owners }
{}

/// An ask for a page is refused as one that would close a circle in no legal history: its owner waits for nothing else.
pub fn page_asks_are_refused_for_no_circle()
    ensures { (shape : Shape) (file : View) (before : History) (owner page : ℕ) (level : Level) (wait landed : Bool) (word : ℕ)
        → IsLegal shape file (happens owner (Ask (page_resource page) level wait word) landed ∷ before)
        → circle_from (after_ask (locks_of before) owner (page_resource page) level word asked.Queued) owner ≡ None }
{}
