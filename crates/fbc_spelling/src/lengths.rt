//! How long a relation's values may be.

ghost use Rattle.std.specs.Prelude.{◌≡◌, ◌≤◌};
ghost use Rattle.fbc_kinds.specs.HeaderSpelling.{IsFileShape};
ghost use Rattle.fbc_kinds.specs.Spelling.{listed_length};

use fbc_kinds::Shape;

/// The greatest length of a relation's values in bytes, 0 where the file does not have the relation.
pub(crate) fn listed_length(shape: &Shape, relation: u16) -> u8
    requires { IsFileShape shape.now }
    ensures value { result ≡ listed_length shape.now relation }
    ensures limit { result ≤ 200 }
{
    match shape.lengths.get(relation as usize) {
        Some(length) => *length,
        None => 0,
    }
}
