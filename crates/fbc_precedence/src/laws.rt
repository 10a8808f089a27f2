//! A law of graphs, for the proofs of the crates above. The function does nothing.

ghost use Rattle.std.specs.Prelude.{◌≡◌, ◌≤◌, ℕ, true, List, length};
ghost use Rattle.std.specs.List.{All};
ghost use Rattle.fbc_kinds.specs.declared.edges.Edge.{Edge as AnEdge};
ghost use Rattle.fbc_precedence.specs.Pages.{has, pages_of};

/// No more pages stand in pairs than in a list that has both pages of each pair. So there is room
/// in the graph for all pairs of pages that as many buffers hold.
pub fn pages_are_few()
    ensures { (pairs : List AnEdge) (pages : List ℕ)
        → All (λ pair. (has pages pair.high ≡ true) × (has pages pair.low ≡ true)) pairs
        → length (pages_of pairs) ≤ length pages }
{}
