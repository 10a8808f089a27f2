//! The 16 bytes with which every page begins.

ghost use Rattle.std.specs.Prelude.{◌≡◌, ◌≤◌, ◌++◌, length, drop, IfOk};
ghost use Rattle.fbc_pages.specs.HeadBytes.{head_bytes};
ghost use Rattle.fbc_kinds.specs.Head.{HasHead, GivesRule, broken_head, has_bad_head, has_stray_relation, has_stray_sequence, relation_in, sequence_in};

use crate::numbers::{is_zeros, read_u16, read_u32};
use byteorder::{ByteOrder, LittleEndian};
use fbc_kinds::Rule;

/// What a head says besides the kind and the page's own number.
#[derive(Clone, Copy, Debug, PartialEq, Eq)]
pub struct Head {
    pub relation: u16,
    pub sequence: u32,
}

/// Reads the head of a page of this kind and number, or answers the first rule that it breaks.
pub fn read_head(kind: u8, page: u32, bytes: &[u8]) -> Result<Head, Rule>
    requires { 16 ≤ length bytes.now }
    ensures relation { IfOk result (λ head. head.relation ≡ relation_in bytes.now) }
    ensures sequence { IfOk result (λ head. head.sequence ≡ sequence_in bytes.now) }
    ensures head { IfOk result (λ head. HasHead kind head.relation page head.sequence bytes.now) }
    ensures no_relation { IfOk result (λ head. kind ≤ 3 → head.relation ≡ 0) }
    ensures no_sequence { IfOk result (λ head. kind ≡ 1 → head.sequence ≡ 0) }
    ensures exact { GivesRule result (broken_head kind page bytes.now) }
{
    if bytes[0] != kind {
        return Err(Rule::Kind);
    }
    if has_bad_head(kind, bytes) {
        return Err(Rule::Head);
    }
    if read_u32(bytes, 4) != page {
        return Err(Rule::Number);
    }
    Ok(Head {
        relation: read_u16(bytes, 2),
        sequence: read_u32(bytes, 8),
    })
}

fn has_bad_head(kind: u8, bytes: &[u8]) -> bool
    requires { 16 ≤ length bytes.now }
    ensures { result ≡ has_bad_head kind bytes.now }
{
    bytes[1] != 1
        || !is_zeros(&bytes[12..16])
        || has_stray_relation(kind, bytes)
        || has_stray_sequence(kind, bytes)
}

fn has_stray_relation(kind: u8, bytes: &[u8]) -> bool
    requires { 16 ≤ length bytes.now }
    ensures { result ≡ has_stray_relation kind bytes.now }
{
    kind <= 3 && read_u16(bytes, 2) != 0
}

fn has_stray_sequence(kind: u8, bytes: &[u8]) -> bool
    requires { 16 ≤ length bytes.now }
    ensures { result ≡ has_stray_sequence kind bytes.now }
{
    kind == 1 && read_u32(bytes, 8) != 0
}

/// Writes the head of a page. The bytes after it stay as they were.
pub fn write_head(kind: u8, relation: u16, page: u32, sequence: u32, out: &mut [u8])
    requires { 16 ≤ length out.old }
    ensures head { HasHead kind relation page sequence out.new }
    ensures rest { drop 16 out.new ≡ drop 16 out.old }
{
    lay_head(kind, relation, page, sequence, out);
}

fn lay_head(kind: u8, relation: u16, page: u32, sequence: u32, out: &mut [u8])
    requires { 16 ≤ length out.old }
    ensures { out.new ≡ head_bytes kind relation page sequence ++ drop 16 out.old }
{
    out[0] = kind;
    out[1] = 1;
    LittleEndian::write_u16(&mut out[2..], relation);
    LittleEndian::write_u32(&mut out[4..], page);
    LittleEndian::write_u32(&mut out[8..], sequence);
    LittleEndian::write_u32(&mut out[12..], 0);
}
