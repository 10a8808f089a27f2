//! The words of a script's lines that stand for something.

ghost use Rattle.std.specs.Prelude.{◌≡◌};
ghost use Rattle.fbc_script.specs.Words as spec;

use crate::faults::Why;
use crate::numbers::{are_digits, number};
use crate::script::Text;
use fbc_kinds::{Name, Padded, is_name};
use fbc_levels::Level;
use fbc_outside::StepName;

/// An attachment in its place.
pub fn read_attachment(word: &[u8]) -> Result<u8, Why>
    ensures { result ≡ spec.read_attachment word.now }
{
    let fault = if is_numbered(word) {
        Why::Attachment
    } else {
        Why::Word
    };
    attachment(word).ok_or(fault)
}

/// The number of an attachment, 1 to 8.
fn attachment(word: &[u8]) -> Option<u8>
    ensures { result ≡ spec.attachment_of word.now }
{
    match word {
        [letter, digit] if *letter == b'a' && b'1' <= *digit && *digit <= b'8' => {
            Some(*digit - b'0')
        }
        _ => None,
    }
}

/// Whether a word is `a` and digits, at least one.
fn is_numbered(word: &[u8]) -> bool
    ensures { result ≡ spec.is_numbered word.now }
{
    match word {
        [letter, digits @ ..] => *letter == b'a' && !digits.is_empty() && are_digits(digits),
        [] => false,
    }
}

/// A relation's name.
pub fn read_name(word: &[u8]) -> Result<Name, Why>
    ensures { result ≡ spec.read_name word.now }
{
    if is_name(word) {
        Ok(Padded::new(word))
    } else {
        Err(Why::Name)
    }
}

/// The text of a value.
pub fn read_text(word: &[u8]) -> Result<Text, Why>
    ensures { result ≡ spec.read_text word.now }
{
    if word.len() <= 255 {
        Ok(Padded::new(word))
    } else {
        Err(Why::Text)
    }
}

/// A row of a relation.
pub fn read_row(word: &[u8]) -> Result<u32, Why>
    ensures { result ≡ spec.read_row word.now }
{
    number(0, 4_294_967_295, word).ok_or(Why::Number)
}

/// How many steps.
pub fn read_count(word: &[u8]) -> Result<u32, Why>
    ensures { result ≡ spec.read_count word.now }
{
    number(1, 65_535, word).ok_or(Why::Number)
}

/// Whether a transaction waits.
pub fn read_mode(word: &[u8]) -> Result<bool, Why>
    ensures { result ≡ spec.read_mode word.now }
{
    if word == b"wait".as_slice() {
        Ok(true)
    } else if word == b"nowait".as_slice() {
        Ok(false)
    } else {
        Err(Why::Word)
    }
}

/// A level that can be reserved.
pub fn read_level(word: &[u8]) -> Result<Level, Why>
    ensures { result ≡ spec.read_level word.now }
{
    if word == b"SR".as_slice() {
        Ok(Level::Sr)
    } else if word == b"PR".as_slice() {
        Ok(Level::Pr)
    } else if word == b"SW".as_slice() {
        Ok(Level::Sw)
    } else if word == b"PW".as_slice() {
        Ok(Level::Pw)
    } else if word == b"EX".as_slice() {
        Ok(Level::Ex)
    } else {
        Err(Why::Word)
    }
}

/// A step's name.
pub fn read_step(word: &[u8]) -> Result<StepName, Why>
    ensures { result ≡ spec.read_step word.now }
{
    if word == b"ask".as_slice() {
        Ok(StepName::Ask)
    } else if word == b"look".as_slice() {
        Ok(StepName::Look)
    } else if word == b"lower".as_slice() {
        Ok(StepName::Lower)
    } else if word == b"read".as_slice() {
        Ok(StepName::Read)
    } else if word == b"write".as_slice() {
        Ok(StepName::Write)
    } else if word == b"callback".as_slice() {
        Ok(StepName::Callback)
    } else if word == b"mark".as_slice() {
        Ok(StepName::Mark)
    } else if word == b"poll".as_slice() {
        Ok(StepName::Poll)
    } else if word == b"answer".as_slice() {
        Ok(StepName::Answer)
    } else {
        Err(Why::Word)
    }
}
