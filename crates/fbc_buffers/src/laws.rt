//! What the calls leave of the other pages.

ghost use Rattle.std.specs.Prelude.{◌≡◌, ◌==◌, ◌<◌, ◌++◌, ◌∷◌, [], ℕ, List, Some, None, Contains, if◌then◌else◌, IfSome, length, map};
ghost use Rattle.std.specs.List.{filter};
ghost use Rattle.std.specs.Option.{option_map};
ghost use Rattle.fbc_buffers.specs.declared.buffers.Buffer.{Buffer as ABuffer};
ghost use Rattle.fbc_buffers.specs.Holding.{AreApart, GivesWay, KeepsPage, buffer_of, is_pinned, touched, victim_of, without};

/// What is found of a page is of that page, and is one of the buffers.
pub fn found_is_of_the_page()
    ensures page { (held : List ABuffer) (page : ℕ) → IfSome (buffer_of held page) (λ b. b.page ≡ page) }
    ensures there { (held : List ABuffer) (page : ℕ) → IfSome (buffer_of held page) (Contains held) }
{}

/// A change that leaves each buffer its page makes what is found of a page.
pub fn changes_are_found()
    ensures { (f : ABuffer → ABuffer) → KeepsPage f → (held : List ABuffer) (page : ℕ) → buffer_of (map f held) page ≡ option_map f (buffer_of held page) }
{}

/// A page that is removed has no buffer, and the others keep theirs.
pub fn removed_is_gone()
    ensures { (page : ℕ) (held : List ABuffer) (other : ℕ) → buffer_of (without page held) other ≡ (if page == other then None else buffer_of held other) }
{}

/// A new buffer is found, and the others stay.
pub fn added_is_found()
    ensures { (held : List ABuffer) (b : ABuffer) (other : ℕ)
        → buffer_of held b.page ≡ None
        → buffer_of (held ++ b ∷ []) other ≡ (if b.page == other then Some b else buffer_of held other) }
{}

/// A use of a page changes no buffer.
pub fn touched_is_found()
    ensures { (page : ℕ) (held : List ABuffer) (other : ℕ) → buffer_of (touched page held) other ≡ buffer_of held other }
{}

/// The victim has a buffer, which is not in use.
pub fn victim_gives_way()
    ensures { (held : List ABuffer) (page : ℕ) → AreApart held → victim_of held ≡ Some page → GivesWay (buffer_of held page) }
{}

/// Where fewer pages are in use than have buffers there is a victim.
pub fn victim_is_there()
    ensures { (held : List ABuffer) → length (filter is_pinned held) < length held → victim_of held ≡ None → ⊥ }
{}
