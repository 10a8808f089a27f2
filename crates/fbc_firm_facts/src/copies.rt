//! What an owner may lean on by its own copies. None of these functions does anything.

ghost use Rattle.fbc_firm_facts.specs.Copies.{IsOwnOrKept};
ghost use Rattle.fbc_kinds.specs.View.{View};
ghost use Rattle.fbc_kinds.specs.declared.pages.Page.{Page};
ghost use Rattle.fbc_kinds.specs.declared.shapes.Shape.{Shape};
ghost use Rattle.fbc_legal.specs.Leans.{IsShown};
ghost use Rattle.fbc_legal.specs.Legal.{IsLegal};
ghost use Rattle.fbc_legal.specs.Scene.{HasDraft, IsBefore, scene_of};
ghost use Rattle.fbc_legal.specs.Stamps.{Stamps, newest_stamps, stamps_of};
ghost use Rattle.fbc_world.specs.History.{History};
ghost use Rattle.fbc_world.specs.World.{world_of};
ghost use Rattle.std.specs.Prelude.{◌≡◌, ℕ, Bool, Option, Some, true};

/// A page of which an owner has a copy has a draft of that owner, or none: then the newest content and
/// stamps are those in the file.
pub fn copied_pages_are_own_or_kept()
    ensures { (shape : Shape) (file : View) (history : History) (owner page : ℕ) (content : Page)
        → IsLegal shape file history → (world_of shape file history).copy owner page ≡ Some content
        → IsOwnOrKept (scene_of shape file history) owner page }
{}

/// What an owner's copy of a page shows, with the newest stamps of the page, may be leant on in an edit
/// of any page, if the owner's draft of the copied page comes before that one.
pub fn copies_carry_leans()
    ensures { (shape : Shape) (file : View) (history : History) (owner edited page : ℕ) (content : Page)
        → (passes : Option Page → Stamps → Bool)
        → IsLegal shape file history → (world_of shape file history).copy owner page ≡ Some content
        → passes (Some content) (newest_stamps (world_of shape file history) (stamps_of shape file history) page) ≡ true
        → (HasDraft (scene_of shape file history) owner page → IsBefore (scene_of shape file history) page edited)
        → IsShown (scene_of shape file history) owner edited page (λ found stamps. passes found stamps ≡ true) }
{}
