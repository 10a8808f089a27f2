//! A page has one spelling, no bytes spell two pages, and bytes that spell a page break no rule.

ghost use Rattle.std.specs.Prelude.{◌≡◌, ℕ, List, None};
ghost use Rattle.fbc_kinds.specs.declared.pages.Data.{Data};
ghost use Rattle.fbc_kinds.specs.declared.pages.Pointer.{Pointer};
ghost use Rattle.fbc_kinds.specs.DataSpelling.{SpellsData, broken_data};
ghost use Rattle.fbc_kinds.specs.Limits.{IsPageSize};
ghost use Rattle.fbc_kinds.specs.PointerSpelling.{SpellsPointer, broken_pointer};

/// The law of pointer pages.
pub fn one_pointer()
    ensures spelling { (size : ℕ) (page : Pointer) (a b : List ℕ) → IsPageSize size → SpellsPointer size page a → SpellsPointer size page b → a ≡ b }
    ensures page { (size : ℕ) (a b : Pointer) (bytes : List ℕ) → SpellsPointer size a bytes → SpellsPointer size b bytes → a ≡ b }
    ensures unbroken { (size : ℕ) (page : Pointer) (bytes : List ℕ) → SpellsPointer size page bytes → broken_pointer page.page bytes ≡ None }
{}

/// The law of data pages.
pub fn one_data()
    ensures spelling { (size greatest : ℕ) (page : Data) (a b : List ℕ)
        → IsPageSize size
        → SpellsData size greatest page a
        → SpellsData size greatest page b
        → a ≡ b }
    ensures page { (size greatest : ℕ) (a b : Data) (bytes : List ℕ) → SpellsData size greatest a bytes → SpellsData size greatest b bytes → a ≡ b }
    ensures unbroken { (size greatest : ℕ) (page : Data) (bytes : List ℕ)
        → IsPageSize size
        → SpellsData size greatest page bytes
        → broken_data size greatest page.page bytes ≡ None }
{}
