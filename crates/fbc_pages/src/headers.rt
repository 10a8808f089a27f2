//! The header: page 0, which says what the whole file is.

ghost use Rattle.std.specs.Prelude.{◌≡◌, ◌+◌, ◌*◌, ◌<◌, ◌≤◌, ◌∷◌, ℕ, List, length, take, slice_get, IfOk, IfErr};
ghost use Rattle.fbc_kinds.specs.Head.{Gives};
ghost use Rattle.fbc_kinds.specs.Limits.{IsPageSize};
ghost use Rattle.fbc_kinds.specs.Padding.{padded};
ghost use Rattle.fbc_kinds.specs.HeaderSpelling.{IsFairEntry, IsHeader, IsRead, IsRelation, SpellsEntry, SpellsHeader, SpellsRelation, broken_header, broken_relations, entry_at, relation_count_in};
ghost use Rattle.fbc_pages.specs.HeadBytes.{mark_bytes, count_bytes, limit_bytes};

use crate::content::{check_content, check_front, entry_at, name_in, relation_count};
use crate::head::{read_head, write_head};
use crate::numbers::{read_numbers, read_u16, read_u32, write_numbers, write_zeros};
use byteorder::{ByteOrder, LittleEndian};
use fbc_kinds::{Header, Listed, Name, PageFault, Relation};
use std::alloc::{AllocError, Global};

const HEADER: u8 = 1;

/// Reads a header: `Damaged` where the bytes spell none, with the first rule that they break.
pub fn decode_header(alloc: Global, size: u32, bytes: &[u8]) -> Result<Header, PageFault>
    requires size { IsPageSize size }
    requires length { length bytes.now ≡ size }
    ensures page { IfOk result (λ header. SpellsHeader size header bytes.now) }
    ensures exact { Gives result (broken_header size bytes.now) }
{
    let _ = read_head(HEADER, 0, bytes)?;
    check_front(read_u32(bytes, 24) == size, bytes)?;
    check_content(size, bytes)?;
    read_header(alloc, size, bytes)
}

fn read_header(alloc: Global, size: u32, bytes: &[u8]) -> Result<Header, PageFault>
    requires size { IsPageSize size }
    requires length { length bytes.now ≡ size }
    requires unbroken { broken_header size bytes.now ≡ None }
    ensures page { IfOk result (λ header. SpellsHeader size header bytes.now) }
    ensures memory { IfErr result (λ fault. fault ≡ PageFault.Memory) }
{
    let relations = read_relations(alloc, bytes)?;
    let tips = read_numbers(alloc, 336, read_u16(bytes, 40) as usize, bytes)?;
    Ok(Header {
        size,
        next: read_u32(bytes, 32),
        inventories: read_u16(bytes, 38),
        oldest: read_u32(bytes, 44),
        relations: Listed::new(relations),
        tips: Listed::new(tips),
    })
}

fn read_relations(alloc: Global, bytes: &[u8]) -> Result<Vec<Relation>, AllocError>
    requires length { 400 ≤ length bytes.now }
    requires relations { relation_count_in bytes.now ≤ 8 }
    requires unbroken { broken_relations bytes.now ≡ None }
    ensures count { IfOk result (λ relations. length relations.items ≡ relation_count_in bytes.now) }
    ensures relations { IfOk result (λ relations. (i : ℕ) (r : Relation) → slice_get relations.items i ≡ Some r → IsRead bytes.now i r) }
{
    let count = relation_count(bytes);
    let mut relations = Vec::with_capacity(alloc, count)?;
    for i in 0..count {
        relations.push(read_relation(alloc, entry_at(bytes, i))?)?;
    }
    Ok(relations)
}

fn read_relation(alloc: Global, entry: &[u8]) -> Result<Relation, AllocError>
    requires { IsFairEntry entry.now }
    ensures relation { IfOk result IsRelation }
    ensures spelled { IfOk result (λ relation. SpellsRelation relation entry.now) }
{
    let pointers = read_numbers(alloc, 20, read_u16(entry, 18) as usize, entry)?;
    Ok(Relation {
        name: Name::new(name_in(entry)),
        length: read_u16(entry, 16) as u8,
        pointers: Listed::new(pointers),
    })
}

/// Writes the bytes of a header.
pub fn encode_header(page: &Header, size: u32, out: &mut [u8])
    requires size { IsPageSize size }
    requires page { IsHeader size page.now }
    requires length { length out.old ≡ size }
    ensures { SpellsHeader size page.now out.new }
{
    write_head(HEADER, 0, 0, 0, out);
    lay_marks(page.size, &mut out[16..32]);
    lay_counts(page, &mut out[32..48]);
    write_entries(page.relations.items(), out);
    write_numbers(page.tips.items(), 336, 16, out);
    write_zeros(&mut out[400..]);
}

fn lay_marks(size: u32, out: &mut [u8])
    requires { length out.old ≡ 16 }
    ensures { out.new ≡ mark_bytes size }
{
    out[..8].copy_from_slice(b"FBCPAGES");
    LittleEndian::write_u32(&mut out[8..], size);
    LittleEndian::write_u32(&mut out[12..], 1);
}

fn lay_counts(page: &Header, out: &mut [u8])
    requires length { length out.old ≡ 16 }
    requires relations { length page.now.relations ≤ 8 }
    requires tips { length page.now.tips ≤ 16 }
    ensures { out.new ≡ count_bytes page.now }
{
    LittleEndian::write_u32(out, page.next);
    LittleEndian::write_u16(&mut out[4..], page.relations.len() as u16);
    LittleEndian::write_u16(&mut out[6..], page.inventories);
    LittleEndian::write_u16(&mut out[8..], page.tips.len() as u16);
    LittleEndian::write_u16(&mut out[10..], 0);
    LittleEndian::write_u32(&mut out[12..], page.oldest);
}

fn write_entries(relations: &[Relation], out: &mut [u8])
    requires length { 336 ≤ length out.old }
    requires relations { (i : ℕ) (r : Relation) → slice_get relations.now i ≡ Some r → IsRelation r }
    ensures before { take 48 out.new ≡ take 48 out.old }
    ensures entries { (i : ℕ) → i < 8 → SpellsEntry (slice_get relations.now i) (entry_at out.new i) }
{
    for i in 0..8 {
        write_entry(relations, i, out);
    }
}

fn write_entry(relations: &[Relation], i: usize, out: &mut [u8])
    requires length { 48 + 36 * i + 36 ≤ length out.old }
    requires relations { (i : ℕ) (r : Relation) → slice_get relations.now i ≡ Some r → IsRelation r }
    ensures before { take (48 + 36 * i) out.new ≡ take (48 + 36 * i) out.old }
    ensures entry { SpellsEntry (slice_get relations.now i) (entry_at out.new i) }
{
    let at = 48 + 36 * i;
    let entry = &mut out[at..at + 36];
    if i < relations.len() {
        write_relation(&relations[i], entry);
    } else {
        write_zeros(entry);
    }
}

fn write_relation(relation: &Relation, entry: &mut [u8])
    requires length { length entry.old ≡ 36 }
    requires relation { IsRelation relation.now }
    ensures { SpellsRelation relation.now entry.new }
{
    write_name(relation.name.as_bytes(), &mut entry[..16]);
    lay_limits(relation, &mut entry[16..20]);
    write_numbers(relation.pointers.items(), 20, 4, entry);
}

fn write_name(name: &[u8], out: &mut [u8])
    requires length { length out.old ≡ 16 }
    requires name { length name.now ≤ 15 }
    ensures { out.new ≡ length name.now ∷ padded 15 name.now }
{
    out.fill(0);
    out[0] = name.len() as u8;
    out[1..name.len() + 1].copy_from_slice(name);
}

fn lay_limits(relation: &Relation, out: &mut [u8])
    requires length { length out.old ≡ 4 }
    requires pointers { length relation.now.pointers ≤ 4 }
    ensures { out.new ≡ limit_bytes relation.now }
{
    LittleEndian::write_u16(out, u16::from(relation.length));
    LittleEndian::write_u16(&mut out[2..], relation.pointers.len() as u16);
}
