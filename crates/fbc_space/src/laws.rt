//! A law of the search for a free page. It does nothing when it is run.

ghost use Rattle.std.specs.Prelude.{◌≡◌, ℕ, List};
ghost use Rattle.fbc_desk.specs.Desk.{DeskState};
ghost use Rattle.fbc_space.specs.declared.finding.Found.{Found as AFound};
ghost use Rattle.fbc_space.specs.declared.finding.FreeSearch.{FreeSearch as ASearch};
ghost use Rattle.fbc_space.specs.Finding.{GoesPast, StopsAt};

/// From where a search stands it comes to one place, and to one answer there.
pub fn searches_are_exact()
    ensures place { (d : DeskState) (limit : ℕ) (passed : List ℕ) (from one two : ASearch) (found other : AFound)
        → GoesPast d limit from one → StopsAt d limit passed one found → GoesPast d limit from two → StopsAt d limit passed two other → one ≡ two }
    ensures answer { (d : DeskState) (limit : ℕ) (passed : List ℕ) (s : ASearch) (found other : AFound)
        → StopsAt d limit passed s found → StopsAt d limit passed s other → found ≡ other }
{}
