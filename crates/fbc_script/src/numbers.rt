//! Numbers in scripts.

ghost use Rattle.std.specs.Prelude.{◌≡◌, ◌<◌, ◌^◌, min};
ghost use Rattle.std.specs.List.{list_all};
ghost use Rattle.fbc_script.specs.Numbers as spec;

/// Greater than every number that a script may hold.
const BEYOND: u64 = 4_294_967_296;

/// The number that a word spells, where it lies from `least` to `most`.
pub fn number(least: u32, most: u32, word: &[u8]) -> Option<u32>
    ensures { result ≡ spec.number_of least most word.now }
{
    if !is_number(word) {
        return None;
    }
    let value = value(word);
    if u64::from(least) <= value && value <= u64::from(most) {
        Some(value as u32)
    } else {
        None
    }
}

/// Whether a word is `0`, or digits without a leading zero.
fn is_number(word: &[u8]) -> bool
    ensures { result ≡ spec.is_number word.now }
{
    match word {
        [] => false,
        [digit] => is_digit(*digit),
        [first, ..] => *first != b'0' && are_digits(word),
    }
}

/// Whether all bytes are digits.
pub fn are_digits(word: &[u8]) -> bool
    ensures { result ≡ list_all spec.is_digit word.now }
{
    word.iter().all(|byte| is_digit(*byte))
}

/// Whether a byte is a digit.
pub fn is_digit(byte: u8) -> bool
    ensures { result ≡ spec.is_digit byte }
{
    b'0' <= byte && byte <= b'9'
}

/// The number of some digits, or `BEYOND` where it is greater.
fn value(digits: &[u8]) -> u64
    ensures { result ≡ min (spec.value_of digits.now) BEYOND }
{
    let mut value = 0u64;
    for digit in digits {
        value = (value * 10 + u64::from(digit.saturating_sub(b'0'))).min(BEYOND);
    }
    value
}
