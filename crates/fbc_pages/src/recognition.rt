//! Whether a file is one of this store's, by its length and its first 1,024 bytes.

ghost use Rattle.std.specs.Prelude.{◌≡◌, ◌+◌, ◌*◌, ◌≤◌, ◌<◌, ℕ, List, None, Some, min, length as length_of, slice_get, IfOk};
ghost use Rattle.fbc_kinds.specs.Head.{GivesRule, broken_head};
ghost use Rattle.fbc_kinds.specs.Limits.{IsPageSize, file_pages, is_page_size};
ghost use Rattle.fbc_kinds.specs.HeaderSpelling.{IsFileShape, ShowsShape, as_recognised, broken_content, broken_file, broken_length, broken_beginning, entry_at, name_in, page_size_in, value_length_in};

use crate::content::{check_content, check_front, entry_at, name_in, relation_count};
use crate::head::read_head;
use crate::numbers::{read_u16, read_u32};
use fbc_kinds::{Name, Rule, Shape};

/// The shape of the file of this length that begins with these bytes, `first` being its first
/// 1,024 bytes, or all of it if it is shorter. `reach` is how far its device reaches, in bytes. Or
/// the first rule that the file breaks; a wrong own number is a fault of the head here.
pub fn recognise(first: &[u8], length: u64, reach: u64) -> Result<Shape, Rule>
    requires first { length_of first.now ≡ min 1024 length }
    requires reach { length ≤ reach }
    ensures exact { GivesRule result (broken_file first.now length) }
    ensures shape { IfOk result (ShowsShape first.now reach) }
    ensures limits { IfOk result IsFileShape }
{
    if length < 1024 {
        return Err(Rule::Short);
    }
    check_start(first, length)?;
    Ok(shown_shape(first, reach))
}

fn check_start(first: &[u8], length: u64) -> Result<(), Rule>
    requires { length_of first.now ≡ 1024 }
    ensures { GivesRule result (broken_beginning first.now length) }
{
    check_head(first)?;
    let size = read_u32(first, 24);
    check_front(is_page_size(size), first)?;
    check_length(size, length)?;
    check_content(size, first)
}

fn check_head(first: &[u8]) -> Result<(), Rule>
    requires { length_of first.now ≡ 1024 }
    ensures { GivesRule result (as_recognised (broken_head 1 0 first.now)) }
{
    match read_head(1, 0, first) {
        Ok(_) => Ok(()),
        Err(rule) => Err(as_recognised(rule)),
    }
}

fn as_recognised(rule: Rule) -> Rule
    ensures { Some result ≡ as_recognised (Some rule) }
{
    match rule {
        Rule::Number => Rule::Head,
        _ => rule,
    }
}

fn is_page_size(size: u32) -> bool
    ensures { result ≡ is_page_size size }
{
    size == 1024 || size == 2048 || size == 4096 || size == 8192 || size == 16384
}

fn check_length(size: u32, length: u64) -> Result<(), Rule>
    requires { IsPageSize size }
    ensures { GivesRule result (broken_length size length) }
{
    if length % u64::from(size) != 0 {
        return Err(Rule::Length);
    }
    Ok(())
}

fn shown_shape(first: &[u8], reach: u64) -> Shape
    requires length { 400 ≤ length_of first.now }
    requires size { IsPageSize (page_size_in first.now) }
    requires unbroken { broken_content (page_size_in first.now) first.now ≡ None }
    ensures shape { ShowsShape first.now reach result }
    ensures limits { IsFileShape result }
{
    let size = read_u32(first, 24);
    Shape {
        size,
        count: relation_count(first) as u8,
        names: shown_names(first),
        lengths: shown_lengths(first),
        limit: file_pages(size, reach),
    }
}

fn shown_names(first: &[u8]) -> [Name; 8]
    requires length { 400 ≤ length_of first.now }
    requires names { (i : ℕ) → i < 8 → length_of (name_in (entry_at first.now i)) ≤ 15 }
    ensures { (i : ℕ) → i < 8 → slice_get result i ≡ Some (name_in (entry_at first.now i)) }
{
    let mut names = [Name::new(&[]); 8];
    for i in 0..8 {
        names[i] = Name::new(name_in(entry_at(first, i)));
    }
    names
}

fn shown_lengths(first: &[u8]) -> [u8; 8]
    requires length { 400 ≤ length_of first.now }
    requires lengths { (i : ℕ) → i < 8 → value_length_in (entry_at first.now i) ≤ 200 }
    ensures { (i : ℕ) → i < 8 → slice_get result i ≡ Some (value_length_in (entry_at first.now i)) }
{
    let mut lengths = [0; 8];
    for i in 0..8 {
        lengths[i] = read_u16(entry_at(first, i), 16) as u8;
    }
    lengths
}

fn file_pages(size: u32, reach: u64) -> u32
    requires { IsPageSize size }
    ensures { result ≡ file_pages size reach }
{
    let counted = 64 * (u64::from(size - 16) * 8);
    counted.min(reach / u64::from(size)) as u32
}
