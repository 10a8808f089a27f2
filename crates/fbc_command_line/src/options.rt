//! The options of a command, read from the words behind its name.

ghost use Rattle.std.specs.Prelude.{◌≡◌, ◌==◌, ◌<◌, ◌≤◌, ◌+◌, Some, length, position, IfOk, IfSome};
ghost use Rattle.fbc_command_line.specs.OptionReading as reading;
ghost use Rattle.fbc_command_line.specs.Options as spec;

use fbc_kinds::{Listed, Padded};
use fbc_script::number;
use std::alloc::{AllocError, Global};

/// What an option takes.
#[derive(Clone, Copy, Debug, PartialEq, Eq)]
pub enum Takes {
    /// Nothing: it is a switch, `--name`.
    Nothing,
    /// A number of this range: `--name N` or `--name=N`.
    Number { least: u32, most: u32 },
}

/// An option that a command has.
#[derive(Clone, Copy, Debug, PartialEq, Eq)]
pub struct OptionRule {
    /// Its name, without the dashes.
    pub name: Padded<15>,
    pub takes: Takes,
}

/// An option that words give.
#[derive(Clone, Copy, Debug, PartialEq, Eq)]
pub struct Given {
    /// Its place in the table of options.
    pub option: usize,
    /// Its number, where it takes one.
    pub number: Option<u32>,
}

/// The first option that words give, and how many words it takes.
#[derive(Clone, Copy, Debug, PartialEq, Eq)]
struct First {
    given: Given,
    words: usize,
}

/// The options of the table that the words give, in the order of the words; `None` where they are
/// not options of the table, each given at most once.
pub fn options_of(
    alloc: Global,
    table: &[OptionRule],
    words: &[String],
) -> Result<Option<Listed<Given>>, AllocError>
    ensures { IfOk result (λ found. spec.TellsOptions table.now words.now found) }
{
    let mut given = Listed::new(Vec::new(alloc));
    let mut at = 0;
    while at < words.len() {
        let Some(first) = first_of(table, &words[at..]) else {
            return Ok(None);
        };
        if is_given(given.items(), first.given.option) {
            return Ok(None);
        }
        given.push(first.given)?;
        at += first.words;
    }
    Ok(Some(given))
}

/// Whether an option is given.
pub fn is_given(given: &[Given], option: usize) -> bool
    ensures { result ≡ spec.is_given given.now option }
{
    given.iter().any(|one| one.option == option)
}

/// The option that the first words give.
fn first_of(table: &[OptionRule], words: &[String]) -> Option<First>
    ensures first { result ≡ reading.first_of table.now words.now }
    ensures within { IfSome result (λ first. first.words ≤ length words.now) }
    ensures some { IfSome result (λ first. 0 < first.words) }
{
    match words {
        [word, rest @ ..] => match equals_in(word.as_bytes()) {
            Some(at) => joined(table, word.as_bytes(), at),
            None => apart(table, word.as_bytes(), rest),
        },
        [] => None,
    }
}

/// Where the first `=` of a word stands.
fn equals_in(word: &[u8]) -> Option<usize>
    ensures found { result ≡ position (λ byte. byte == 61) word.now }
    ensures within { IfSome result (λ at. at < length word.now) }
{
    word.iter().position(|byte| *byte == b'=')
}

/// The option that a word gives with its number, behind the `=` that stands there.
fn joined(table: &[OptionRule], word: &[u8], at: usize) -> Option<First>
    requires { at < length word.now }
    ensures first { result ≡ reading.joined table.now word.now at }
    ensures one { IfSome result (λ first. first.words ≡ 1) }
{
    match option_named(table, &word[..at]) {
        Some(option) => with_number(takes_at(table, option), option, &word[at + 1..], 1),
        None => None,
    }
}

/// The option that a word names, alone or with its number in the next word.
fn apart(table: &[OptionRule], word: &[u8], rest: &[String]) -> Option<First>
    ensures first { result ≡ reading.apart table.now word.now rest.now }
    ensures within { IfSome result (λ first. first.words ≤ length rest.now + 1) }
    ensures some { IfSome result (λ first. 0 < first.words) }
{
    match option_named(table, word) {
        Some(option) => alone_or_next(takes_at(table, option), option, rest),
        None => None,
    }
}

/// What the option at this place takes.
fn takes_at(table: &[OptionRule], option: usize) -> Takes
    requires { option < length table.now }
    ensures { reading.takes_at table.now option ≡ Some result }
{
    table[option].takes
}

/// An option alone, or with its number in the next word.
fn alone_or_next(takes: Takes, option: usize, rest: &[String]) -> Option<First>
    ensures first { result ≡ reading.alone_or_next takes option rest.now }
    ensures within { IfSome result (λ first. first.words ≤ length rest.now + 1) }
    ensures some { IfSome result (λ first. 0 < first.words) }
{
    match (takes, rest) {
        (Takes::Nothing, _) => Some(First {
            given: Given {
                option,
                number: None,
            },
            words: 1,
        }),
        (_, [next, ..]) => with_number(takes, option, next.as_bytes(), 2),
        _ => None,
    }
}

/// An option with its number, where these digits spell one that it takes.
fn with_number(takes: Takes, option: usize, digits: &[u8], words: usize) -> Option<First>
    ensures first { result ≡ reading.with_number takes option digits.now words }
    ensures words { IfSome result (λ first. first.words ≡ words) }
{
    match number_in(takes, digits) {
        Some(number) => Some(First {
            given: Given {
                option,
                number: Some(number),
            },
            words,
        }),
        None => None,
    }
}

/// The number that digits spell, where an option takes it.
fn number_in(takes: Takes, digits: &[u8]) -> Option<u32>
    ensures { result ≡ spec.number_in takes digits.now }
{
    match takes {
        Takes::Nothing => None,
        Takes::Number { least, most } => number(least, most, digits),
    }
}

/// The place in the table of the option that a word names.
fn option_named(table: &[OptionRule], word: &[u8]) -> Option<usize>
    ensures named { result ≡ spec.option_named table.now word.now }
    ensures within { IfSome result (λ option. option < length table.now) }
{
    table
        .iter()
        .position(|rule| names(word, rule.name.as_bytes()))
}

/// Whether a word is two dashes and this name.
fn names(word: &[u8], name: &[u8]) -> bool
    ensures { result ≡ spec.names word.now name.now }
{
    match word {
        [b'-', b'-', rest @ ..] => rest == name,
        _ => false,
    }
}
