//! Laws of the grammar.

ghost use Rattle.std.specs.Prelude.{◌≡◌, ℕ, Bool, List, Ok};
ghost use Rattle.fbc_script.specs.declared.script.Order.{Order};
ghost use Rattle.fbc_script.specs.declared.script.Script.{Script};
ghost use Rattle.fbc_script.specs.Orders.{read_line};
ghost use Rattle.fbc_script.specs.Scripts.{IsScript};
ghost use Rattle.fbc_script.specs.Spelling.{order_text};

/// Bytes spell at most one script.
pub fn bytes_spell_one_script()
    ensures { (threads : Bool) (bytes : List ℕ) (script other : Script)
        → IsScript threads bytes script → IsScript threads bytes other → script ≡ other }
{}

/// A line that asks for something is its one spelling, word for word.
pub fn lines_have_one_spelling()
    ensures { (threads : Bool) (line : List ℕ) (order : Order)
        → read_line threads line ≡ Ok order → line ≡ order_text order }
{}
