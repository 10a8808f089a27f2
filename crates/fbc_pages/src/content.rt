//! The rules of a header's content, each tested by itself and in their order.

ghost use Rattle.std.specs.Prelude.{◌≡◌, ◌+◌, ◌*◌, ◌≤◌, ◌<◌, length, drop, false, OnOk};
ghost use Rattle.fbc_kinds.specs.Head.{GivesRule, any_below, is_within, is_zeros};
ghost use Rattle.std.specs.Str.{bytes_eq};
ghost use Rattle.fbc_kinds.specs.Limits.{IsPageSize};
ghost use Rattle.fbc_kinds.specs.HeaderSpelling.{broken_content, broken_counts, broken_end, broken_front, broken_relations, entry_at, has_bad_count, has_bad_name, has_bad_names, has_bad_next, has_bad_number, has_bad_pointer_count, has_bad_pointers, has_bad_tips, has_bad_value, has_bad_values, has_mark, has_some_bad_pointers, holds_name, name_in, relation_count_in, repeats_name};

use crate::numbers::{is_zeros, read_u16, read_u32};
use fbc_kinds::{Rule, is_name};

/// Tests the mark, the page size, by what the caller knows of it, and the version.
pub fn check_front(right_size: bool, bytes: &[u8]) -> Result<(), Rule>
    requires { 400 ≤ length bytes.now }
    ensures { GivesRule result (broken_front right_size bytes.now) }
{
    if !has_mark(bytes) {
        return Err(Rule::Magic);
    }
    if !right_size {
        return Err(Rule::Size);
    }
    if read_u32(bytes, 28) != 1 {
        return Err(Rule::Version);
    }
    Ok(())
}

fn has_mark(bytes: &[u8]) -> bool
    requires { 400 ≤ length bytes.now }
    ensures { result ≡ has_mark bytes.now }
{
    &bytes[16..24] == b"FBCPAGES".as_slice()
}

/// Tests what a header says, as far as these bytes show it.
pub fn check_content(size: u32, bytes: &[u8]) -> Result<(), Rule>
    requires size { IsPageSize size }
    requires length { 400 ≤ length bytes.now }
    ensures { GivesRule result (broken_content size bytes.now) }
{
    check_counts(size, bytes)?;
    check_relations(bytes)?;
    check_end(bytes)
}

fn check_counts(size: u32, bytes: &[u8]) -> Result<(), Rule>
    requires size { IsPageSize size }
    requires length { 400 ≤ length bytes.now }
    ensures exact { GivesRule result (broken_counts size bytes.now) }
    ensures relations { OnOk result (relation_count_in bytes.now ≤ 8) }
{
    if has_bad_next(size, bytes) {
        return Err(Rule::Next);
    }
    if has_bad_count(bytes) {
        return Err(Rule::Count);
    }
    Ok(())
}

fn has_bad_next(size: u32, bytes: &[u8]) -> bool
    requires size { IsPageSize size }
    requires length { 400 ≤ length bytes.now }
    ensures { result ≡ has_bad_next size bytes.now }
{
    let next = u64::from(read_u32(bytes, 32));
    let tips = u64::from(read_u16(bytes, 40));
    let page = u64::from(size) - 16;
    next == 0 || 64 * page < next || 4 * page * tips < next
}

fn has_bad_count(bytes: &[u8]) -> bool
    requires { 400 ≤ length bytes.now }
    ensures exact { result ≡ has_bad_count bytes.now }
    ensures relations { result ≡ false → relation_count_in bytes.now ≤ 8 }
{
    !is_within(1, 8, read_u16(bytes, 36))
        || !is_within(1, 64, read_u16(bytes, 38))
        || !is_within(1, 16, read_u16(bytes, 40))
        || read_u16(bytes, 42) != 0
}

fn is_within(low: u16, high: u16, number: u16) -> bool
    ensures { result ≡ is_within low high number }
{
    low <= number && number <= high
}

fn check_relations(bytes: &[u8]) -> Result<(), Rule>
    requires length { 400 ≤ length bytes.now }
    requires relations { relation_count_in bytes.now ≤ 8 }
    ensures { GivesRule result (broken_relations bytes.now) }
{
    if has_bad_names(bytes) {
        return Err(Rule::Name);
    }
    if has_bad_values(bytes) {
        return Err(Rule::Value);
    }
    if has_some_bad_pointers(bytes) {
        return Err(Rule::Pointers);
    }
    Ok(())
}

fn check_end(bytes: &[u8]) -> Result<(), Rule>
    requires { 400 ≤ length bytes.now }
    ensures { GivesRule result (broken_end bytes.now) }
{
    if has_bad_tips(bytes) {
        return Err(Rule::Tips);
    }
    if read_u32(bytes, 44) != 0 {
        return Err(Rule::Oldest);
    }
    if !ends_in_zeros(bytes) {
        return Err(Rule::Rest);
    }
    Ok(())
}

fn ends_in_zeros(bytes: &[u8]) -> bool
    requires { 400 ≤ length bytes.now }
    ensures { result ≡ is_zeros (drop 400 bytes.now) }
{
    is_zeros(&bytes[400..])
}

/// How many relations the header counts.
pub fn relation_count(bytes: &[u8]) -> usize
    requires { 400 ≤ length bytes.now }
    ensures { result ≡ relation_count_in bytes.now }
{
    read_u16(bytes, 36) as usize
}

/// The entry of a relation: 36 bytes.
pub fn entry_at(bytes: &[u8], i: usize) -> &[u8]
    requires { 48 + 36 * i + 36 ≤ length bytes.now }
    ensures entry { result.now ≡ entry_at bytes.now i }
    ensures length { length result.now ≡ 36 }
{
    let at = 48 + 36 * i;
    &bytes[at..at + 36]
}

/// The name in an entry.
pub fn name_in(entry: &[u8]) -> &[u8]
    requires { length entry.now ≡ 36 }
    ensures { result.now ≡ name_in entry.now }
{
    let end = (1 + entry[0] as usize).min(36);
    &entry[1..end]
}

fn has_bad_names(bytes: &[u8]) -> bool
    requires length { 400 ≤ length bytes.now }
    requires relations { relation_count_in bytes.now ≤ 8 }
    ensures { result ≡ has_bad_names bytes.now }
{
    any_bad_name(bytes) || any_repeated_name(bytes)
}

fn any_bad_name(bytes: &[u8]) -> bool
    requires { 400 ≤ length bytes.now }
    ensures { result ≡ any_below (has_bad_name bytes.now) 8 }
{
    for i in 0..8 {
        if has_bad_name(bytes, i) {
            return true;
        }
    }
    false
}

fn has_bad_name(bytes: &[u8], i: usize) -> bool
    requires length { 400 ≤ length bytes.now }
    requires entry { i < 8 }
    ensures { result ≡ has_bad_name bytes.now i }
{
    let entry = entry_at(bytes, i);
    if i < relation_count(bytes) {
        !holds_name(entry)
    } else {
        !is_zeros(&entry[..16])
    }
}

fn holds_name(entry: &[u8]) -> bool
    requires { length entry.now ≡ 36 }
    ensures { result ≡ holds_name entry.now }
{
    let length = entry[0] as usize;
    length <= 15 && is_name(name_in(entry)) && is_zeros(&entry[1 + length..16])
}

fn any_repeated_name(bytes: &[u8]) -> bool
    requires length { 400 ≤ length bytes.now }
    requires relations { relation_count_in bytes.now ≤ 8 }
    ensures { result ≡ any_below (repeats_name bytes.now) (relation_count_in bytes.now) }
{
    let count = relation_count(bytes);
    for i in 0..count {
        if repeats_name(bytes, i) {
            return true;
        }
    }
    false
}

fn repeats_name(bytes: &[u8], i: usize) -> bool
    requires length { 400 ≤ length bytes.now }
    requires entry { i < 8 }
    ensures { result ≡ repeats_name bytes.now i }
{
    for j in 0..i {
        if have_one_name(bytes, j, i) {
            return true;
        }
    }
    false
}

fn have_one_name(bytes: &[u8], j: usize, i: usize) -> bool
    requires length { 400 ≤ length bytes.now }
    requires first { j < 8 }
    requires second { i < 8 }
    ensures { result ≡ bytes_eq (name_in (entry_at bytes.now j)) (name_in (entry_at bytes.now i)) }
{
    name_in(entry_at(bytes, j)) == name_in(entry_at(bytes, i))
}

fn has_bad_values(bytes: &[u8]) -> bool
    requires { 400 ≤ length bytes.now }
    ensures { result ≡ has_bad_values bytes.now }
{
    for i in 0..8 {
        if has_bad_value(bytes, i) {
            return true;
        }
    }
    false
}

fn has_bad_value(bytes: &[u8], i: usize) -> bool
    requires length { 400 ≤ length bytes.now }
    requires entry { i < 8 }
    ensures { result ≡ has_bad_value bytes.now i }
{
    let value = read_u16(entry_at(bytes, i), 16);
    if i < relation_count(bytes) {
        !is_within(1, 200, value)
    } else {
        value != 0
    }
}

fn has_some_bad_pointers(bytes: &[u8]) -> bool
    requires { 400 ≤ length bytes.now }
    ensures { result ≡ has_some_bad_pointers bytes.now }
{
    for i in 0..8 {
        if has_bad_pointers(bytes, i) {
            return true;
        }
    }
    false
}

fn has_bad_pointers(bytes: &[u8], i: usize) -> bool
    requires length { 400 ≤ length bytes.now }
    requires entry { i < 8 }
    ensures { result ≡ has_bad_pointers bytes.now i }
{
    let entry = entry_at(bytes, i);
    has_bad_pointer_count(bytes, i) || any_bad_number(read_u16(entry, 18) as usize, 20, 4, entry)
}

fn has_bad_pointer_count(bytes: &[u8], i: usize) -> bool
    requires length { 400 ≤ length bytes.now }
    requires entry { i < 8 }
    ensures { result ≡ has_bad_pointer_count bytes.now i }
{
    let count = read_u16(entry_at(bytes, i), 18);
    if i < relation_count(bytes) {
        !is_within(1, 4, count)
    } else {
        count != 0
    }
}

fn has_bad_tips(bytes: &[u8]) -> bool
    requires { 400 ≤ length bytes.now }
    ensures { result ≡ has_bad_tips bytes.now }
{
    any_bad_number(read_u16(bytes, 40) as usize, 336, 16, bytes)
}

fn any_bad_number(used: usize, from: usize, limit: usize, bytes: &[u8]) -> bool
    requires { from + 4 * limit ≤ length bytes.now }
    ensures { result ≡ any_below (has_bad_number used from bytes.now) limit }
{
    for i in 0..limit {
        if has_bad_number(used, from, bytes, i) {
            return true;
        }
    }
    false
}

fn has_bad_number(used: usize, from: usize, bytes: &[u8], i: usize) -> bool
    requires { from + 4 * i + 4 ≤ length bytes.now }
    ensures { result ≡ has_bad_number used from bytes.now i }
{
    let number = read_u32(bytes, from + 4 * i);
    if i < used { number == 0 } else { number != 0 }
}
