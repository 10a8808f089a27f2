//! What an edit has to pass to fit a page, and how much has room in a page.

ghost use Rattle.std.specs.Prelude.{◌≡◌};
ghost use Rattle.fbc_kinds.specs.Edits.{IsShape, covers, is_version, may_be, stands_in, suits, value_length};
ghost use Rattle.fbc_kinds.specs.Limits.{IsPageSize, cells, slots};

use fbc_kinds::{Cell, Flag, Shape, State};

/// Whether the page inventory of that sequence covers a page.
pub fn covers(size: u32, sequence: u32, number: u32) -> bool
    requires { IsPageSize size }
    ensures { result ≡ covers size sequence number }
{
    number / ((size - 16) * 8) == sequence
}

/// Whether a transaction number stands in the transaction inventory page of that sequence.
pub fn stands_in(size: u32, sequence: u32, number: u32) -> bool
    requires { IsPageSize size }
    ensures { result ≡ stands_in size sequence number }
{
    number / (4 * (size - 16)) == sequence
}

/// Whether a transaction number may have a state.
pub fn may_be(number: u32, state: State) -> bool
    ensures { result ≡ may_be number state }
{
    match state {
        State::Active => true,
        State::Limbo => false,
        State::Dead => number != 0,
        State::Committed => number != 0,
    }
}

/// How many slots a pointer page has.
pub fn slots(size: u32) -> u32
    requires { IsPageSize size }
    ensures { result ≡ slots size }
{
    (size - 16) / 4
}

/// How many cells a data page has, for values of at most that many bytes.
pub fn cells(size: u32, greatest: u8) -> u32
    requires { IsPageSize size }
    ensures { result ≡ cells size greatest }
{
    (size - 16) / (12 + greatest as u32)
}

/// The greatest length of a value of a relation, in bytes; 0 where the shape does not have the
/// relation.
pub fn value_length(shape: &Shape, relation: u8) -> u8
    requires { IsShape shape.now }
    ensures { result ≡ value_length shape.now relation }
{
    if relation < shape.count {
        shape.lengths[relation as usize]
    } else {
        0
    }
}

/// Whether the cell holds a version and is within its limits.
pub fn is_version(greatest: u8, content: &Cell) -> bool
    ensures { result ≡ is_version greatest content.now }
{
    suits(content.flag, greatest, content.value.as_bytes().len())
        && content.number != 0
        && (content.back_page != 0 || content.back_cell == 0)
}

/// Whether a value of that many bytes suits a version with this flag.
fn suits(flag: Flag, greatest: u8, size: usize) -> bool
    ensures { result ≡ suits flag greatest size }
{
    match flag {
        Flag::Empty => false,
        Flag::Primary => 1 <= size && size <= greatest as usize,
        Flag::Deletion => size == 0,
        Flag::Back => 1 <= size && size <= greatest as usize,
    }
}
