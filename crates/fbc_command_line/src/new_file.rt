//! The words behind `create`: a page size, and one to eight relations.

ghost use Rattle.std.specs.Prelude.{◌≡◌, ◌==◌, ◌<◌, codes, position, length, IfOk, IfSome};
ghost use Rattle.fbc_kinds.specs.Limits.{is_page_size};
ghost use Rattle.fbc_command_line.specs.Commands.{TellsBehind, TellsFile};
ghost use Rattle.fbc_command_line.specs.NewFile as spec;

use crate::commands::Command;
use fbc_files::{NewRelation, are_new_relations};
use fbc_kinds::{Listed, Name, is_name};
use fbc_script::number;
use std::alloc::{AllocError, Global};

/// The making of a file, where the words behind `create` spell it.
pub fn create_of(alloc: Global, words: &[String]) -> Result<Option<Command>, AllocError>
    ensures { IfOk result (λ found. TellsBehind (codes "create") words.now found) }
{
    match words {
        [size, relations @ ..] => file_of(alloc, size.as_bytes(), relations),
        [] => Ok(None),
    }
}

/// The making of a file with a page size and relations, where the words spell them.
fn file_of(alloc: Global, size: &[u8], words: &[String]) -> Result<Option<Command>, AllocError>
    ensures { IfOk result (λ found. TellsFile size.now words.now found) }
{
    let Some(size) = size_of(size) else {
        return Ok(None);
    };
    match relations_of(alloc, words)? {
        Some(relations) if are_new_relations(relations.items()) => {
            Ok(Some(Command::Create { size, relations }))
        }
        _ => Ok(None),
    }
}

/// The page size that a word spells.
fn size_of(word: &[u8]) -> Option<u32>
    ensures size { result ≡ spec.size_of word.now }
{
    match number(1024, 16384, word) {
        Some(size) if is_page_size(size) => Some(size),
        _ => None,
    }
}

fn is_page_size(size: u32) -> bool
    ensures { result ≡ is_page_size size }
{
    size == 1024 || size == 2048 || size == 4096 || size == 8192 || size == 16384
}

/// The relations that words spell, one each.
fn relations_of(alloc: Global, words: &[String]) -> Result<Option<Listed<NewRelation>>, AllocError>
    ensures { IfOk result (λ found. found ≡ spec.relations_of words.now) }
{
    let mut relations = Listed::new(Vec::new(alloc));
    for word in words {
        match relation_of(word.as_bytes()) {
            Some(relation) => relations.push(relation)?,
            None => return Ok(None),
        }
    }
    Ok(Some(relations))
}

/// The relation that a word spells: a name, a colon, and the greatest length of a value.
fn relation_of(word: &[u8]) -> Option<NewRelation>
    ensures { result ≡ spec.relation_of word.now }
{
    match colon_in(word) {
        Some(colon) => relation_at(word, colon),
        None => None,
    }
}

/// Where the first colon of a word stands.
fn colon_in(word: &[u8]) -> Option<usize>
    ensures found { result ≡ position (λ byte. byte == 58) word.now }
    ensures within { IfSome result (λ at. at < length word.now) }
{
    word.iter().position(|byte| *byte == b':')
}

/// The relation that a word spells whose first colon stands there.
fn relation_at(word: &[u8], colon: usize) -> Option<NewRelation>
    requires { colon < length word.now }
    ensures { result ≡ spec.relation_at word.now colon }
{
    match number(1, 200, &word[colon + 1..]) {
        Some(length) => named(&word[..colon], length as u8),
        None => None,
    }
}

/// A relation of this name, where the text is a name.
fn named(text: &[u8], length: u8) -> Option<NewRelation>
    ensures { result ≡ spec.named text.now length }
{
    if is_name(text) {
        Some(NewRelation {
            name: Name::new(text),
            length,
        })
    } else {
        None
    }
}
