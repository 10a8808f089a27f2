//! The page inventory: a bit for each page, set where the page is taken.

ghost use Rattle.std.specs.Prelude.{◌≡◌, ◌+◌, ◌*◌, ◌-◌, ◌/◌, ◌^◌, ◌<◌, ◌≤◌, ◌++◌, ℕ, length, take, slice_index, IfOk, OnOk};
ghost use Rattle.fbc_kinds.specs.Head.{Gives, GivesRule, sequence_in};
ghost use Rattle.fbc_kinds.specs.Limits.{IsPageSize};
ghost use Rattle.fbc_pages.specs.Parts.{four_marks, marks_of};
ghost use Rattle.fbc_kinds.specs.InventorySpelling.{broken_inventory, broken_marks, hides_header, hides_itself, is_bit_set, IsInventory, SpellsInventory, bit_at, marks_byte};

use crate::head::{read_head, write_head};
use fbc_kinds::{Inventory, Listed, PageFault, Rule};
use std::alloc::{AllocError, Global};

const INVENTORY: u8 = 2;

/// Reads a page inventory, the page of this number: `Damaged` where the bytes spell none, with the
/// first rule that they break.
pub fn decode_inventory(
    alloc: Global,
    size: u32,
    page: u32,
    bytes: &[u8],
) -> Result<Inventory, PageFault>
    requires size { IsPageSize size }
    requires length { length bytes.now ≡ size }
    ensures number { IfOk result (λ inventory. inventory.page ≡ page) }
    ensures page { IfOk result (λ inventory. SpellsInventory size inventory bytes.now) }
    ensures exact { Gives result (broken_inventory size page bytes.now) }
{
    let head = read_head(INVENTORY, page, bytes)?;
    check_marks(size, page, head.sequence, bytes)?;
    let taken = read_marks(alloc, bytes)?;
    Ok(Inventory {
        page,
        sequence: head.sequence,
        taken: Listed::new(taken),
    })
}

fn check_marks(size: u32, page: u32, sequence: u32, bytes: &[u8]) -> Result<(), Rule>
    requires size { IsPageSize size }
    requires length { length bytes.now ≡ size }
    requires sequence { sequence ≡ sequence_in bytes.now }
    ensures { GivesRule result (broken_marks size page bytes.now) }
{
    if hides_itself(size, page, sequence, bytes) || hides_header(sequence, bytes) {
        return Err(Rule::Bits);
    }
    Ok(())
}

fn hides_itself(size: u32, page: u32, sequence: u32, bytes: &[u8]) -> bool
    requires size { IsPageSize size }
    requires length { length bytes.now ≡ size }
    requires sequence { sequence ≡ sequence_in bytes.now }
    ensures { result ≡ hides_itself size page bytes.now }
{
    let covered = (size - 16) * 8;
    page / covered == sequence && !is_bit_set(bytes, (page % covered) as usize)
}

fn hides_header(sequence: u32, bytes: &[u8]) -> bool
    requires length { 16 < length bytes.now }
    requires sequence { sequence ≡ sequence_in bytes.now }
    ensures { result ≡ hides_header bytes.now }
{
    sequence == 0 && !is_bit_set(bytes, 0)
}

fn is_bit_set(bytes: &[u8], i: usize) -> bool
    requires { 16 + i / 8 < length bytes.now }
    ensures { result ≡ is_bit_set bytes.now i }
{
    (bytes[16 + i / 8] >> (i % 8)) % 2 == 1
}

fn read_marks(alloc: Global, bytes: &[u8]) -> Result<Vec<bool>, AllocError>
    requires head { 16 ≤ length bytes.now }
    requires long { length bytes.now < 2 ^ 32 }
    ensures count { IfOk result (λ taken. length taken.items ≡ 8 * (length bytes.now - 16)) }
    ensures marks { IfOk result (λ taken. (k : ℕ) → k < length bytes.now - 16 → slice_index bytes.now (16 + k) ≡ marks_byte taken.items k) }
{
    let count = bytes.len() - 16;
    let mut taken = Vec::with_capacity(alloc, 8 * count)?;
    for k in 0..count {
        push_marks(&mut taken, bytes[16 + k])?;
    }
    Ok(taken)
}

fn push_marks(taken: &mut Vec<bool>, byte: u8) -> Result<(), AllocError>
    ensures { OnOk result (taken.new.items ≡ taken.old.items ++ marks_of byte) }
{
    push_four(taken, byte)?;
    push_four(taken, byte / 16)
}

fn push_four(taken: &mut Vec<bool>, bits: u8) -> Result<(), AllocError>
    ensures { OnOk result (taken.new.items ≡ taken.old.items ++ four_marks bits) }
{
    taken.push(bits % 2 == 1)?;
    taken.push(bits / 2 % 2 == 1)?;
    taken.push(bits / 4 % 2 == 1)?;
    taken.push(bits / 8 % 2 == 1)?;
    Ok(())
}

/// Writes the bytes of a page inventory.
pub fn encode_inventory(page: &Inventory, size: u32, out: &mut [u8])
    requires size { IsPageSize size }
    requires page { IsInventory size page.now }
    requires length { length out.old ≡ size }
    ensures { SpellsInventory size page.now out.new }
{
    write_head(INVENTORY, 0, page.page, page.sequence, out);
    write_marks(page.taken.items(), out);
}

fn write_marks(taken: &[bool], out: &mut [u8])
    requires head { 16 ≤ length out.old }
    requires marks { length taken.now ≡ 8 * (length out.old - 16) }
    ensures head { take 16 out.new ≡ take 16 out.old }
    ensures marks { (k : ℕ) → k < length out.new - 16 → slice_index out.new (16 + k) ≡ marks_byte taken.now k }
{
    for k in 0..out.len() - 16 {
        out[16 + k] = marks_byte(taken, k);
    }
}

fn marks_byte(taken: &[bool], k: usize) -> u8
    requires { 8 * k + 8 ≤ length taken.now }
    ensures { result ≡ marks_byte taken.now k }
{
    let at = 8 * k;
    let high = bit_at(taken, at + 6) + 2 * bit_at(taken, at + 7);
    let upper = bit_at(taken, at + 4) + 2 * (bit_at(taken, at + 5) + 2 * high);
    let lower = bit_at(taken, at + 2) + 2 * (bit_at(taken, at + 3) + 2 * upper);
    bit_at(taken, at) + 2 * (bit_at(taken, at + 1) + 2 * lower)
}

fn bit_at(taken: &[bool], i: usize) -> u8
    requires { i < length taken.now }
    ensures bit { result ≡ bit_at taken.now i }
    ensures small { result < 2 }
{
    if taken[i] { 1 } else { 0 }
}
