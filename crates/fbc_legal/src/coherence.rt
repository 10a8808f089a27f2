//! Laws of locks, copies, drafts and pairs, which hold after every legal history over any file.
//! None of these functions does anything.

ghost use Rattle.std.specs.Prelude.{◌≡◌, ◌≢◌, ◌⊎◌, ℕ, true, IsTrue, None, Some};
ghost use Rattle.fbc_kinds.specs.View.{View};
ghost use Rattle.fbc_kinds.specs.declared.pages.Page.{Page};
ghost use Rattle.fbc_kinds.specs.declared.shapes.Shape.{Shape};
ghost use Rattle.fbc_legal.specs.Coherent.{IsCoherent};
ghost use Rattle.fbc_legal.specs.Legal.{IsLegal};
ghost use Rattle.fbc_levels.specs.Levels.{is_compatible};
ghost use Rattle.fbc_levels.specs.declared.levels.Level.{Level};
ghost use Rattle.fbc_levels.specs.declared.levels.Level.TheVariants as level;
ghost use Rattle.fbc_levels.specs.declared.resources.Resource.{Resource};
ghost use Rattle.fbc_world.specs.History.{History};
ghost use Rattle.fbc_levels.specs.Resources.{page_resource};
ghost use Rattle.fbc_world.specs.Locks.{waiting};
ghost use Rattle.fbc_world.specs.Owners.{granted, is_alive};
ghost use Rattle.fbc_world.specs.PageCell.{copy_of, draft, draft_owner, newest};
ghost use Rattle.fbc_world.specs.World.{world_of};
ghost use Rattle.fbc_world.specs.WriteOrder.{IsPair, pairs_of};
ghost use Rattle.fbc_kinds.specs.Order.{StandsBefore};
ghost use Rattle.fbc_world.specs.declared.drafts.Draft.{Draft};

/// All of the laws below at once, of what stands after the history as one record.
pub fn legal_worlds_are_coherent()
    ensures { (shape : Shape) (file : View) (history : History) → IsLegal shape file history → IsCoherent (world_of shape file history) }
{}

/// What different owners are granted on one resource goes beside each other.
pub fn locks_go_beside()
    ensures { (shape : Shape) (file : View) (history : History) (owner other : ℕ) (resource : Resource) → IsLegal shape file history
        → owner ≢ other → IsTrue (is_compatible (granted history owner resource) (granted history other resource)) }
{}

/// Who waits for a page is granted nothing on it yet.
pub fn page_waits_hold_nothing()
    ensures { (shape : Shape) (file : View) (history : History) (owner page : ℕ) (wanted : Level) → IsLegal shape file history
        → waiting history owner (page_resource page) ≡ Some wanted → granted history owner (page_resource page) ≡ level.Free }
{}

/// Who has a copy of a page is alive, and has the page in PR or EX.
pub fn copies_are_held()
    ensures alive { (shape : Shape) (file : View) (history : History) (owner page : ℕ) (content : Page) → IsLegal shape file history
        → copy_of shape file history owner page ≡ Some content → is_alive history owner ≡ true }
    ensures level { (shape : Shape) (file : View) (history : History) (owner page : ℕ) (content : Page) → IsLegal shape file history
        → copy_of shape file history owner page ≡ Some content
        → (granted history owner (page_resource page) ≡ level.Pr) ⊎ (granted history owner (page_resource page) ≡ level.Ex) }
{}

/// Who has the draft of a page is alive, has the page in EX, and uses the draft.
pub fn drafts_are_held()
    ensures alive { (shape : Shape) (file : View) (history : History) (page : ℕ) (drafted : Draft) → IsLegal shape file history
        → draft shape file history page ≡ Some drafted → is_alive history drafted.owner ≡ true }
    ensures level { (shape : Shape) (file : View) (history : History) (page : ℕ) (drafted : Draft) → IsLegal shape file history
        → draft shape file history page ≡ Some drafted → granted history drafted.owner (page_resource page) ≡ level.Ex }
    ensures copy { (shape : Shape) (file : View) (history : History) (page : ℕ) (drafted : Draft) → IsLegal shape file history
        → draft shape file history page ≡ Some drafted → copy_of shape file history drafted.owner page ≡ Some drafted.content }
{}

/// What an owner may use of a page is the newest content of it.
pub fn copies_are_newest()
    ensures { (shape : Shape) (file : View) (history : History) (owner page : ℕ) (content : Page) → IsLegal shape file history
        → copy_of shape file history owner page ≡ Some content → newest shape file history page ≡ Some content }
{}

/// Where one owner has a page in EX, no other has a copy of it.
pub fn exclusive_locks_exclude_copies()
    ensures { (shape : Shape) (file : View) (history : History) (owner other page : ℕ) → IsLegal shape file history
        → granted history owner (page_resource page) ≡ level.Ex → other ≢ owner → copy_of shape file history other page ≡ None }
{}

/// The owner of a page's draft alone may use the page.
pub fn one_draft()
    ensures copy { (shape : Shape) (file : View) (history : History) (page : ℕ) (drafted : Draft) (other : ℕ) → IsLegal shape file history
        → draft shape file history page ≡ Some drafted → other ≢ drafted.owner → copy_of shape file history other page ≡ None }
    ensures level { (shape : Shape) (file : View) (history : History) (page : ℕ) (drafted : Draft) (other : ℕ) → IsLegal shape file history
        → draft shape file history page ≡ Some drafted → other ≢ drafted.owner
        → ¬ ((granted history other (page_resource page) ≡ level.Pr) ⊎ (granted history other (page_resource page) ≡ level.Ex)) }
{}

/// Who has a pair of pages is alive, has the draft of the high page, and has the low page in EX.
pub fn pairs_are_held()
    ensures alive { (shape : Shape) (file : View) (history : History) (owner high low : ℕ) → IsLegal shape file history
        → pairs_of history owner high low ≡ true → is_alive history owner ≡ true }
    ensures draft { (shape : Shape) (file : View) (history : History) (owner high low : ℕ) → IsLegal shape file history
        → pairs_of history owner high low ≡ true → draft_owner shape file history high ≡ Some owner }
    ensures level { (shape : Shape) (file : View) (history : History) (owner high low : ℕ) → IsLegal shape file history
        → pairs_of history owner high low ≡ true → granted history owner (page_resource low) ≡ level.Ex }
{}

/// No page is to be written before itself.
pub fn pairs_form_no_circle()
    ensures { (shape : Shape) (file : View) (history : History) (page : ℕ) → IsLegal shape file history → ¬ StandsBefore (IsPair history) page page }
{}
