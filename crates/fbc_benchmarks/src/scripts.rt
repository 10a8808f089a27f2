//! A script of any length.

ghost use Rattle.std.specs.Prelude.{◌≡◌, ◌*◌, length, IfOk};

use std::alloc::{AllocError, Global};

/// Two lines: an insert and a read.
pub const PAIR: &[u8] = b"a1 insert t some_text_of_a_value\na1 read t 12345\n";

/// A script of so many pairs of lines.
pub fn script_of(alloc: Global, pairs: usize) -> Result<Vec<u8>, AllocError>
    ensures { IfOk result (λ script. length script.items ≡ 49 * pairs) }
{
    PAIR.repeat(alloc, pairs)
}
