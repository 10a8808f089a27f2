//! What a page is spelled as is what is read.

ghost use Rattle.std.specs.Prelude.{◌≡◌, ℕ, List, None, true};
ghost use Rattle.fbc_kinds.specs.declared.pages.Page.{Page};
ghost use Rattle.fbc_kinds.specs.declared.shapes.Shape.{Shape};
ghost use Rattle.fbc_kinds.specs.File.{ShowsPage, stands_under};
ghost use Rattle.fbc_kinds.specs.HeaderSpelling.{IsFileShape};
ghost use Rattle.fbc_kinds.specs.Spelling.{IsSpelling, first_broken_rule};

/// Bytes that spell a page break no rule where it may stand, and show that page alone there.
pub fn spelled_pages_are_shown()
    ensures unbroken { (shape : Shape) (number : ℕ) (page : Page) (bytes : List ℕ)
        → IsFileShape shape
        → IsSpelling shape page bytes
        → stands_under number page ≡ true
        → first_broken_rule shape number bytes ≡ None }
    ensures shown { (shape : Shape) (number : ℕ) (page shown : Page) (bytes : List ℕ)
        → IsFileShape shape
        → IsSpelling shape page bytes
        → stands_under number page ≡ true
        → ShowsPage shape number bytes shown
        → shown ≡ page }
{}
