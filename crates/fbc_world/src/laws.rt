//! Laws over all histories. None of these functions does anything.

ghost use Rattle.std.specs.Prelude.{◌≡◌, ◌≢◌, [], ◌∷◌, ℕ, Bool, false, None, Some, true};
ghost use Rattle.fbc_kinds.specs.View.{View};
ghost use Rattle.fbc_kinds.specs.declared.commands.Command.TheVariants as command;
ghost use Rattle.fbc_kinds.specs.declared.pages.State.TheVariants as state;
ghost use Rattle.fbc_kinds.specs.declared.shapes.Shape.{Shape};
ghost use Rattle.fbc_levels.specs.declared.levels.Level.TheVariants as level;
ghost use Rattle.fbc_levels.specs.declared.resources.Resource.{Resource};
ghost use Rattle.fbc_levels.specs.Resources.{page_resource};
ghost use Rattle.fbc_world.specs.declared.events.Act.{Act};
ghost use Rattle.fbc_world.specs.declared.events.Act.TheVariants as acts;
ghost use Rattle.fbc_world.specs.Commands.{commands_of};
ghost use Rattle.fbc_world.specs.Example.{example_file, example_shape, with_mark, with_write};
ghost use Rattle.fbc_world.specs.Others.{LeavesOther};
ghost use Rattle.fbc_world.specs.History.{History, happens};
ghost use Rattle.fbc_world.specs.Holdings.{holdings_of};
ghost use Rattle.fbc_world.specs.Owners.{granted, is_alive};
ghost use Rattle.fbc_world.specs.Locks.{locks_of};
ghost use Rattle.fbc_world.specs.World.{World, acted, newest_of, world_of};
ghost use Rattle.fbc_world.specs.WriteOrder.{pairs_of};
ghost use Rattle.fbc_world.specs.PageCell.{copy_of, draft, draft_owner, kept, newest};

/// A copy ends with the lock on its page, and with its owner.
pub fn copies_end_with_their_locks()
    ensures lowered { (shape : Shape) (file : View) (before : History) (owner page : ℕ) (landed : Bool)
        → copy_of shape file (happens owner (acts.Lower (page_resource page) level.Free) landed ∷ before) owner page ≡ None }
    ensures died { (shape : Shape) (file : View) (before : History) (owner page : ℕ) (landed : Bool)
        → copy_of shape file (happens owner acts.Die landed ∷ before) owner page ≡ None }
{}

/// A dead owner has no draft, and is not alive.
pub fn drafts_end_with_their_owners()
    ensures draft { (shape : Shape) (file : View) (before : History) (owner page : ℕ) (landed : Bool)
        → draft_owner shape file (happens owner acts.Die landed ∷ before) page ≢ Some owner }
    ensures alive { (before : History) (owner : ℕ) (landed : Bool)
        → is_alive (happens owner acts.Die landed ∷ before) owner ≡ false }
{}

/// The draft of a page is one owner's.
pub fn pages_have_one_draft()
    ensures { (w : World) (page owner other : ℕ)
        → (holdings_of w owner).is_draft page ≡ true → (holdings_of w other).is_draft page ≡ true → owner ≡ other }
{}

/// What one owner does changes nothing that is another's. Of the other's drafts only an edit of
/// that page takes one away, of its pairs only a write of the high page, and of its requests and
/// granted levels only a purge. An act that spares these leaves its holdings as they are.
pub fn others_leave_ones_own()
    ensures { (shape : Shape) (w : World) (owner other : ℕ) (act : Act) (landed : Bool) → owner ≢ other
        → LeavesOther w (acted shape w owner act landed) other act landed }
{}

/// What stands after a history, taken as one record, is in each part what the definition of that
/// part says.
pub fn worlds_are_replays()
    ensures kept { (shape : Shape) (file : View) (history : History) (page : ℕ)
        → (world_of shape file history).kept page ≡ kept shape file history page }
    ensures draft { (shape : Shape) (file : View) (history : History) (page : ℕ)
        → (world_of shape file history).draft page ≡ draft shape file history page }
    ensures newest { (shape : Shape) (file : View) (history : History) (page : ℕ)
        → newest_of (world_of shape file history) page ≡ newest shape file history page }
    ensures copy { (shape : Shape) (file : View) (history : History) (owner page : ℕ)
        → (world_of shape file history).copy owner page ≡ copy_of shape file history owner page }
    ensures granted { (shape : Shape) (file : View) (history : History) (owner : ℕ) (resource : Resource)
        → (world_of shape file history).granted owner resource ≡ granted history owner resource }
    ensures locks { (shape : Shape) (file : View) (history : History)
        → (world_of shape file history).locks ≡ locks_of history }
    ensures pair { (shape : Shape) (file : View) (history : History) (owner high low : ℕ)
        → (world_of shape file history).has_pair owner high low ≡ pairs_of history owner high low }
    ensures alive { (shape : Shape) (file : View) (history : History) (owner : ℕ)
        → (world_of shape file history).is_alive owner ≡ is_alive history owner }
{}

/// The commands of the example, by how it ends: it stands open with its mark in a draft; the mark
/// is written; the write fails, and the page did not or did reach the file; it is marked as dead.
/// Cell 5 of the page of sequence 2 is row 95, since a page has 45 cells.
pub fn commands_of_the_example()
    ensures open_still { commands_of example_shape example_file (with_mark state.Committed)
        ≡ command.Begin 1 1 ∷ command.Insert 1 0 95 (65 ∷ []) ∷ command.Update 1 0 95 (66 ∷ []) ∷ [] }
    ensures committed { commands_of example_shape example_file (with_write false false state.Committed)
        ≡ command.Begin 1 1 ∷ command.Insert 1 0 95 (65 ∷ []) ∷ command.Update 1 0 95 (66 ∷ []) ∷ command.Commit 1 ∷ [] }
    ensures lost { commands_of example_shape example_file (with_write true false state.Committed)
        ≡ command.Begin 1 1 ∷ command.Insert 1 0 95 (65 ∷ []) ∷ command.Update 1 0 95 (66 ∷ []) ∷ command.Kill 1 ∷ [] }
    ensures landed { commands_of example_shape example_file (with_write true true state.Committed)
        ≡ command.Begin 1 1 ∷ command.Insert 1 0 95 (65 ∷ []) ∷ command.Update 1 0 95 (66 ∷ []) ∷ command.Commit 1 ∷ command.Kill 1 ∷ [] }
    ensures rolled_back { commands_of example_shape example_file (with_write false false state.Dead)
        ≡ command.Begin 1 1 ∷ command.Insert 1 0 95 (65 ∷ []) ∷ command.Update 1 0 95 (66 ∷ []) ∷ command.Rollback 1 ∷ [] }
{}
