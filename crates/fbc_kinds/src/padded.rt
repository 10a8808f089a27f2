//! Short texts of bytes that stand in pages: names of relations and values of records.

ghost use Rattle.std.specs.Prelude.{◌≡◌, ◌≤◌, length};

use std::marker::Model;

/// A text of at most `WIDTH` bytes, seen by contracts as the list of its bytes. It is stored as
/// its length and `WIDTH` bytes, those past the text being zeros.
#[derive(Clone, Copy, Debug, PartialEq, Eq)]
pub struct Padded<const WIDTH: usize> {
    length: u8,
    bytes: [u8; WIDTH],
}

impl<const WIDTH: usize> Model for Padded<WIDTH> {
    ghost use Rattle.std.specs.Prelude.{List, ℕ, length as length_of_list};

    ghost Value = { List ℕ };

    ghost use Rattle.fbc_kinds.specs.Padding.{text_of, IsPadded, padded, length-text_of, padded-text_of};

    ghost view = { λ a. text_of a.length a.bytes };

    ghost invariant = { λ a. IsPadded WIDTH a.length a.bytes };

    ghost inverse = { λ text. record { length = length_of_list text; bytes = padded WIDTH text } };

    ghost inverse_ok = { λ a is i. record { length = length-text_of WIDTH a.length a.bytes is i; bytes = padded-text_of WIDTH a.length a.bytes is i } };
}

impl<const WIDTH: usize> Padded<WIDTH> {
    /// The text of these bytes.
    pub fn new(text: &[u8]) -> Self
        requires width { length text.now ≤ WIDTH }
        requires byte { length text.now ≤ 255 }
        ensures { result ≡ text.now }
    {
        let mut bytes = [0; WIDTH];
        bytes[..text.len()].copy_from_slice(text);
        Padded {
            length: text.len() as u8,
            bytes,
        }
    }

    /// How many bytes the text has.
    pub fn len(&self) -> u8
        ensures { result ≡ length self.now }
    {
        self.length
    }

    /// The bytes of the text.
    pub fn as_bytes(&self) -> &[u8]
        ensures { result.now ≡ self.now }
    {
        &self.bytes[..self.length as usize]
    }
}

/// A relation's name: 1 to 15 bytes.
pub type Name = Padded<15>;

/// A record's value: 1 to 200 bytes, of any byte values.
pub type Value = Padded<200>;
