//! What an owner's copies make firm. None of these functions does anything.

ghost use Rattle.fbc_closed_cuts.specs.Cut.{Cut, view};
ghost use Rattle.fbc_closed_cuts.specs.Firm.{HasOwnDrafts, IsFirm};
ghost use Rattle.fbc_firm_facts.specs.Copies.{ReadsOnly};
ghost use Rattle.fbc_firm_facts.specs.HeaderFacts.{GrowsWithHeaders};
ghost use Rattle.fbc_notes.specs.RowNames.{names_row};
ghost use Rattle.fbc_kinds.specs.Chain.{state_of};
ghost use Rattle.fbc_kinds.specs.Limits.{tip_numbers};
ghost use Rattle.fbc_kinds.specs.View.{View, size_of, tip_of};
ghost use Rattle.fbc_kinds.specs.declared.shapes.Shape.{Shape};
ghost use Rattle.fbc_legal.specs.Legal.{IsLegal};
ghost use Rattle.fbc_legal.specs.Scene.{newest_after};
ghost use Rattle.fbc_world.specs.History.{History};
ghost use Rattle.fbc_world.specs.World.{world_of};
ghost use Rattle.std.specs.Prelude.{◌≡◌, ◌/◌, ℕ, Bool, IsSome, Some, true};

/// A test of views that reads only pages of which the owner has copies is firm where the newest pages
/// pass it.
pub fn copied_pages_make_facts_firm()
    ensures { (shape : Shape) (file : View) (history : History) (owner : ℕ) (reads : ℕ → Bool) (passes : View → Bool)
        → IsLegal shape file history
        → ((page : ℕ) → reads page ≡ true → IsSome ((world_of shape file history).copy owner page))
        → ReadsOnly reads passes → passes (newest_after shape file history) ≡ true
        → IsFirm (world_of shape file history) owner passes }
{}

/// With a copy of the header all is firm that the newest header shows and that grows with headers.
pub fn copied_headers_make_facts_firm()
    ensures { (shape : Shape) (file : View) (history : History) (owner : ℕ) (passes : View → Bool)
        → IsLegal shape file history → IsSome ((world_of shape file history).copy owner 0)
        → GrowsWithHeaders passes → passes (newest_after shape file history) ≡ true
        → IsFirm (world_of shape file history) owner passes }
{}

/// With copies of the header and of the pointer page a data page is firmly named that the newest ones
/// name.
pub fn copied_pages_name_rows_firmly()
    ensures { (shape : Shape) (file : View) (history : History) (owner relation sequence pointer page : ℕ)
        → IsLegal shape file history
        → IsSome ((world_of shape file history).copy owner 0) → IsSome ((world_of shape file history).copy owner pointer)
        → names_row shape relation sequence pointer page (newest_after shape file history) ≡ true
        → IsFirm (world_of shape file history) owner (names_row shape relation sequence pointer page) }
{}

/// With copies of the header and of the transaction inventory page that the newest header names for a
/// number, each view that has the owner's drafts shows the number's newest state.
pub fn copied_states_are_firm()
    ensures { (shape : Shape) (file : View) (history : History) (owner number tip : ℕ) (cut : Cut)
        → IsLegal shape file history
        → IsSome ((world_of shape file history).copy owner 0) → IsSome ((world_of shape file history).copy owner tip)
        → tip_of (newest_after shape file history) (number / tip_numbers (size_of (newest_after shape file history))) ≡ Some tip
        → HasOwnDrafts (world_of shape file history) owner cut
        → state_of (view (world_of shape file history) cut) number ≡ state_of (newest_after shape file history) number }
{}
