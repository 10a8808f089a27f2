//! The commands, each with its name and the words behind it.

ghost use Rattle.std.specs.Prelude.{◌≡◌, ◌↔◌, IsTrue, codes, string_bytes, IfOk};
ghost use Rattle.fbc_command_line.specs.Commands as spec;

use crate::new_file::create_of;
use crate::options::{OptionRule, Takes, is_given, options_of};
use fbc_files::NewRelation;
use fbc_kinds::{Listed, Padded};
use std::alloc::{AllocError, Global};

/// What the words ask for.
#[derive(Debug, Drop)]
pub enum Command {
    /// A script is read from the source and played over the file.
    Play,
    /// A file with pages of `size` bytes is made with these relations.
    Create {
        size: u32,
        relations: Listed<NewRelation>,
    },
    /// The whole file is checked, and its findings are told: as JSON, or else as text.
    Validate {
        json: bool,
    },
}

/// The place of `--json` among them.
const JSON: usize = 0;

/// The command that the words spell, without the file's name.
pub fn command_of(alloc: Global, words: &[String]) -> Result<Option<Command>, AllocError>
    ensures { IfOk result (λ found. spec.TellsCommand words.now found) }
{
    let [name, behind @ ..] = words else {
        return Ok(None);
    };
    if is_create(name) {
        create_of(alloc, behind)
    } else if is_play(name) {
        Ok(play_of(behind))
    } else if is_validate(name) {
        validate_of(alloc, behind)
    } else {
        Ok(None)
    }
}

fn is_create(word: &String) -> bool
    ensures { IsTrue result ↔ (string_bytes word.now ≡ codes "create") }
{
    word.as_str() == "create"
}

fn is_play(word: &String) -> bool
    ensures { IsTrue result ↔ (string_bytes word.now ≡ codes "play") }
{
    word.as_str() == "play"
}

fn is_validate(word: &String) -> bool
    ensures { IsTrue result ↔ (string_bytes word.now ≡ codes "validate") }
{
    word.as_str() == "validate"
}

/// The play of a script, where nothing stands behind `play`.
fn play_of(words: &[String]) -> Option<Command>
    ensures { spec.TellsBehind (codes "play") words.now result }
{
    if words.is_empty() {
        Some(Command::Play)
    } else {
        None
    }
}

/// The options of `validate`: the switch `--json`.
fn validate_options() -> [OptionRule; 1]
    ensures { result ≡ spec.validate_options }
{
    [OptionRule {
        name: Padded::new(b"json"),
        takes: Takes::Nothing,
    }]
}

/// The check of a file, where the words behind `validate` are its options.
fn validate_of(alloc: Global, words: &[String]) -> Result<Option<Command>, AllocError>
    ensures { IfOk result (λ found. spec.TellsBehind (codes "validate") words.now found) }
{
    match options_of(alloc, &validate_options(), words)? {
        Some(given) => Ok(Some(Command::Validate {
            json: is_given(given.items(), JSON),
        })),
        None => Ok(None),
    }
}
