//! What a legal act of one owner leaves to the living others.

ghost use Rattle.std.specs.Prelude.{◌≡◌, ◌≢◌, ◌∷◌, ℕ, Some, true};
ghost use Rattle.fbc_kinds.specs.View.{View};
ghost use Rattle.fbc_kinds.specs.declared.shapes.Shape.{Shape};
ghost use Rattle.fbc_legal.specs.Legal.{IsLegal};
ghost use Rattle.fbc_world.specs.Frames.{requests_of};
ghost use Rattle.fbc_world.specs.History.{History, Moment};
ghost use Rattle.fbc_world.specs.Holdings.{holdings_of};
ghost use Rattle.fbc_world.specs.Locks.{locks_of};
ghost use Rattle.fbc_world.specs.Owners.{is_alive};
ghost use Rattle.fbc_world.specs.PageCell.{draft};
ghost use Rattle.fbc_world.specs.World.{world_of};
ghost use Rattle.fbc_world.specs.declared.drafts.Draft.{Draft};

/// A legal event of one owner changes nothing of another owner that is alive: neither its copies,
/// pins and pairs, nor its drafts, its requests and granted levels, its open transaction with its
/// snapshot, and its mark. It does nothing when it is run.
pub fn legal_acts_leave_the_living()
    ensures holdings { (shape : Shape) (file : View) (before : History) (moment : Moment) (other : ℕ) → IsLegal shape file (moment ∷ before)
        → is_alive before other ≡ true → moment.event.actor ≢ other
        → holdings_of (world_of shape file (moment ∷ before)) other ≡ holdings_of (world_of shape file before) other }
    ensures drafts { (shape : Shape) (file : View) (before : History) (moment : Moment) (other page : ℕ) (drafted : Draft)
        → IsLegal shape file (moment ∷ before)
        → is_alive before other ≡ true → moment.event.actor ≢ other
        → draft shape file before page ≡ Some drafted → drafted.owner ≡ other → draft shape file (moment ∷ before) page ≡ Some drafted }
    ensures requests { (shape : Shape) (file : View) (before : History) (moment : Moment) (other : ℕ) → IsLegal shape file (moment ∷ before)
        → is_alive before other ≡ true → moment.event.actor ≢ other
        → requests_of (locks_of (moment ∷ before)) other ≡ requests_of (locks_of before) other }
    ensures transaction { (shape : Shape) (file : View) (before : History) (moment : Moment) (other : ℕ) → IsLegal shape file (moment ∷ before)
        → is_alive before other ≡ true → moment.event.actor ≢ other
        → (world_of shape file (moment ∷ before)).transaction other ≡ (world_of shape file before).transaction other }
    ensures mark { (shape : Shape) (file : View) (before : History) (moment : Moment) (other : ℕ) → IsLegal shape file (moment ∷ before)
        → is_alive before other ≡ true → moment.event.actor ≢ other
        → (world_of shape file (moment ∷ before)).marked other ≡ (world_of shape file before).marked other }
{}
