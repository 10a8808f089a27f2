//! Laws of the spelling: a page within its limits has one spelling, no bytes spell two pages, and
//! bytes that spell a page break no rule.

ghost use Rattle.std.specs.Prelude.{◌≡◌, ℕ, List, None};
ghost use Rattle.fbc_kinds.specs.declared.pages.Header.{Header};
ghost use Rattle.fbc_kinds.specs.declared.pages.Inventory.{Inventory};
ghost use Rattle.fbc_kinds.specs.declared.pages.Tip.{Tip};
ghost use Rattle.fbc_kinds.specs.Limits.{IsPageSize};
ghost use Rattle.fbc_kinds.specs.HeaderSpelling.{SpellsHeader, broken_header};
ghost use Rattle.fbc_kinds.specs.InventorySpelling.{SpellsInventory, broken_inventory};
ghost use Rattle.fbc_kinds.specs.TipSpelling.{SpellsTip, broken_tip};

/// Headers and their bytes name each other. It does nothing when it is run.
pub fn one_header()
    ensures spelling { (size : ℕ) (page : Header) (a b : List ℕ) → SpellsHeader size page a → SpellsHeader size page b → a ≡ b }
    ensures unbroken { (size : ℕ) (page : Header) (bytes : List ℕ) → IsPageSize size → SpellsHeader size page bytes → broken_header size bytes ≡ None }
    ensures page { (size : ℕ) (a b : Header) (bytes : List ℕ) → IsPageSize size → SpellsHeader size a bytes → SpellsHeader size b bytes → a ≡ b }
{}

/// Page inventories and their bytes name each other. It does nothing when it is run.
pub fn one_inventory()
    ensures spelling { (size : ℕ) (page : Inventory) (a b : List ℕ) → SpellsInventory size page a → SpellsInventory size page b → a ≡ b }
    ensures unbroken { (size : ℕ) (page : Inventory) (bytes : List ℕ)
        → IsPageSize size
        → SpellsInventory size page bytes
        → broken_inventory size page.page bytes ≡ None }
    ensures page { (size : ℕ) (a b : Inventory) (bytes : List ℕ) → SpellsInventory size a bytes → SpellsInventory size b bytes → a ≡ b }
{}

/// Transaction inventory pages and their bytes name each other. It does nothing when it is run.
pub fn one_tip()
    ensures spelling { (size : ℕ) (page : Tip) (a b : List ℕ) → SpellsTip size page a → SpellsTip size page b → a ≡ b }
    ensures unbroken { (size : ℕ) (page : Tip) (bytes : List ℕ) → IsPageSize size → SpellsTip size page bytes → broken_tip page.page bytes ≡ None }
    ensures page { (size : ℕ) (a b : Tip) (bytes : List ℕ) → SpellsTip size a bytes → SpellsTip size b bytes → a ≡ b }
{}
