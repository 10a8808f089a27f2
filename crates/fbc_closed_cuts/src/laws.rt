//! Laws of cuts, whatever stands. None of these functions does anything.

ghost use Rattle.std.specs.Prelude.{◌≡◌, ℕ, IsSome, false, is_some, true};
ghost use Rattle.fbc_closed_cuts.specs.Cut.{Cut, IsClosedCut, view};
ghost use Rattle.fbc_world.specs.World.{IsPairIn, World, newest_of};

/// A set of drafted pages is a closed cut if it has with the low page of each pair its high one.
/// Where each high page of a pair has a draft, this is so in every closed cut.
pub fn pairs_close_cuts()
    ensures closed { (w : World) (cut : Cut) → ((page : ℕ) → cut page ≡ true → IsSome (w.draft page))
        → ((high low : ℕ) → IsPairIn w high low → cut low ≡ true → cut high ≡ true)
        → IsClosedCut w cut }
    ensures pair { (w : World) (cut : Cut) (high low : ℕ) → IsClosedCut w cut → IsPairIn w high low
        → IsSome (w.draft high) → cut low ≡ true → cut high ≡ true }
{}

/// With no draft the view is what is kept, and with all drafts it is what is newest.
pub fn views_lie_between()
    ensures kept { (w : World) (page : ℕ) → view w (λ p. false) page ≡ w.kept page }
    ensures newest { (w : World) (page : ℕ) → view w (λ p. is_some (w.draft p)) page ≡ newest_of w page }
{}
