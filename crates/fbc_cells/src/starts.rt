//! How a page of a relation begins.

ghost use Rattle.std.specs.Prelude.{◌≡◌, ◌≤◌, ◌<◌, length, drop, IfOk};
ghost use Rattle.fbc_kinds.specs.Head.{HasHead, GivesRule};
ghost use Rattle.fbc_kinds.specs.Limits.{relation_limit};
ghost use Rattle.fbc_kinds.specs.PointerSpelling.{broken_start};

use fbc_kinds::Rule;
use fbc_pages::head::read_head;

/// What the head of a page of a relation says besides its kind and its own number.
#[derive(Drop)]
pub(crate) struct Start {
    pub relation: u8,
    pub sequence: u32,
}

/// Reads the head of a page of a relation, or answers the first rule that it breaks.
pub(crate) fn read_start(kind: u8, page: u32, bytes: &[u8]) -> Result<Start, Rule>
    requires { 16 ≤ length bytes.now }
    ensures head { IfOk result (λ start. HasHead kind start.relation page start.sequence bytes.now) }
    ensures relation { IfOk result (λ start. start.relation < relation_limit) }
    ensures exact { GivesRule result (broken_start kind page bytes.now) }
{
    let head = read_head(kind, page, bytes)?;
    if head.relation >= 8 {
        return Err(Rule::Relation);
    }
    Ok(Start {
        relation: head.relation as u8,
        sequence: head.sequence,
    })
}

/// The bytes from a place on.
pub(crate) fn bytes_from(bytes: &[u8], at: usize) -> &[u8]
    requires { at ≤ length bytes.now }
    ensures { result.now ≡ drop at bytes.now }
{
    &bytes[at..]
}
