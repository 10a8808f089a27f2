//! Files by their length and their first bytes: the first rule that they break, or their shape; and
//! new files.

ghost use Rattle.fbc_kinds.specs.Limits.{IsPageSize};
ghost use Rattle.fbc_files.specs.NewPages.{AreNewRelations};

use crate::values::page_size;
use fbc_files::{CreateFault, NewRelation, are_new_relations, create_file};
use fbc_kinds::{Name, Rule, Shape};
use fbc_outside::MemoryDevice;
use fbc_pages::recognise;
use fbc_samples::{FRESH, Fault, lay_changes, page_of, push_bytes, words_of};
use std::alloc::Global;

/// How far the device of a new file reaches, in bytes.
const REACH: u64 = 262_144;

/// Answers a line on a file: whether it begins as the fresh file or with zeros, its length, how far
/// its device reaches, and the changes of its first bytes.
pub fn recognised(alloc: Global, line: &str) -> Result<String, Fault> {
    let words = words_of(alloc, line)?;
    let [start, length, reach, ref changes @ ..] = *words.as_slice() else {
        return Err(Fault::Unreadable);
    };
    let mut first = match start {
        "fresh" => page_of(FRESH, 0, &[]),
        "zeros" => [0; 1024],
        _ => return Err(Fault::Unreadable),
    };
    lay_changes(alloc, changes, &mut first)?;
    shape_of(alloc, &first, length.parse()?, reach.parse()?)
}

/// What is recognised in a file of that length with these bytes.
fn shape_of(alloc: Global, bytes: &[u8], length: u64, reach: u64) -> Result<String, Fault> {
    let kept = length.min(1024) as usize;
    if length > reach || kept > bytes.len() {
        return Err(Fault::Unreadable);
    }
    match recognise(&bytes[..kept], length, reach) {
        Ok(shape) => shape_told(alloc, &shape),
        Err(rule) => Ok(format!(in alloc; "{rule}")?),
    }
}

/// The shape's numbers, and its relations.
fn shape_told(alloc: Global, shape: &Shape) -> Result<String, Fault> {
    let mut out = format!(in alloc; "size {} limit {}", shape.size, shape.limit)?;
    let relations = shape.names.iter().zip(shape.lengths.iter());
    for (name, length) in relations.take(shape.count as usize) {
        out.push_str(", ")?;
        push_bytes(name.as_bytes(), &mut out)?;
        write!(out, " {length}")?;
    }
    Ok(out)
}

/// Answers a line on a new file: the size of its pages, and its relations.
pub fn created(alloc: Global, line: &str) -> Result<String, Fault> {
    let words = words_of(alloc, line)?;
    let [size, ref relations @ ..] = *words.as_slice() else {
        return Err(Fault::Unreadable);
    };
    let size = page_size(size)?;
    let mut list = Vec::new(alloc);
    for relation in relations {
        list.push(relation_of(relation)?)?;
    }
    if are_new_relations(&list) {
        make(alloc, size, &list)
    } else {
        Ok(String::from_str(alloc, "no file has such relations")?)
    }
}

/// Makes a file, and tells how many pages it has and what is recognised in it.
fn make(alloc: Global, size: u32, relations: &[NewRelation]) -> Result<String, Fault>
    requires size { IsPageSize size }
    requires relations { AreNewRelations relations.now }
{
    let mut device = MemoryDevice::new(alloc, Vec::new(alloc), REACH, Vec::new(alloc))?;
    let pages = match create_file(alloc, &mut device, size, relations) {
        Ok(pages) => pages,
        Err(CreateFault::Device) => return Err(Fault::Unreadable),
        Err(CreateFault::Memory) => return Err(Fault::Memory),
    };
    let bytes = device.bytes();
    let shape = shape_of(alloc, bytes, bytes.len() as u64, REACH)?;
    Ok(format!(in alloc; "{pages} pages in {} bytes, {shape}", bytes.len())?)
}

/// The relation of a name and a length with a colon between them.
fn relation_of(word: &str) -> Result<NewRelation, Fault> {
    let (name, length) = word.split_once(':').ok_or(Fault::Unreadable)?;
    if name.len() > 15 {
        return Err(Fault::Unreadable);
    }
    Ok(NewRelation {
        name: Name::new(name.as_bytes()),
        length: length.parse()?,
    })
}
