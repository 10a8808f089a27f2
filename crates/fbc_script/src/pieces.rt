//! Bytes in pieces: the lines of a script, and the words of a line.

ghost use Rattle.std.specs.Prelude.{◌≡◌, ◌==◌, ◌<◌, [], ◌∷◌, true, length, MatchOption, IfSome};
ghost use Rattle.std.specs.List.{position, list_all};
ghost use Rattle.fbc_script.specs.Pieces as spec;

/// The first piece and what stands behind its separator, or nothing where no bytes are left.
pub fn split_piece(bytes: &[u8], separator: u8) -> Option<(&[u8], &[u8])>
    ensures pieces { MatchOption result (spec.pieces_of separator bytes.now ≡ [])
        (λ p. spec.pieces_of separator bytes.now ≡ p.0.now ∷ spec.pieces_of separator p.1.now) }
    ensures shorter { IfSome result (λ p. length p.1.now < length bytes.now) }
{
    if bytes.is_empty() {
        return None;
    }
    match separator_in(bytes, separator) {
        Some(end) => Some((&bytes[..end], &bytes[end + 1..])),
        None => Some((bytes, &[])),
    }
}

/// Where the first separator stands.
fn separator_in(bytes: &[u8], separator: u8) -> Option<usize>
    ensures found { result ≡ position (λ byte. byte == separator) bytes.now }
    ensures within { IfSome result (λ at. at < length bytes.now) }
{
    bytes.iter().position(|byte| *byte == separator)
}

/// Whether a line is words of printable bytes with single spaces between them.
pub fn is_spaced(line: &[u8]) -> bool
    ensures { result ≡ spec.is_spaced line.now }
{
    are_printable(line) && has_single_spaces(line)
}

/// Whether all bytes may stand in a line.
fn are_printable(line: &[u8]) -> bool
    ensures { result ≡ list_all spec.is_printable line.now }
{
    line.iter().all(|byte| is_printable(*byte))
}

/// Whether a byte may stand in a line.
fn is_printable(byte: u8) -> bool
    ensures { result ≡ spec.is_printable byte }
{
    32 <= byte && byte <= 126
}

/// Whether spaces are single and none is at an end.
fn has_single_spaces(line: &[u8]) -> bool
    ensures { result ≡ spec.has_single_spaces true line.now }
{
    let mut due = true;
    for byte in line {
        let space = *byte == b' ';
        if space && due {
            return false;
        }
        due = space;
    }
    !due
}

/// Whether a line is passed over: it is empty or begins with `#`.
pub fn is_passed_over(line: &[u8]) -> bool
    ensures { result ≡ spec.is_passed_over line.now }
{
    match line {
        [] => true,
        [first, ..] => *first == b'#',
    }
}
