//! The words of command lines, and the commands and options that they spell.

use fbc_command_line::{Command, Given, OptionRule, Takes, command_of, is_given, options_of};
use fbc_kinds::Padded;
use fbc_samples::Fault;
use std::alloc::Global;

/// Answers one line: `command` or `options`, and the words.
pub fn answer(alloc: Global, line: &str) -> Result<String, Fault> {
    let words = arguments_of(alloc, line)?;
    let [what, words @ ..] = words.as_slice() else {
        return Err(Fault::Unreadable);
    };
    match what.as_str() {
        "command" => command(alloc, words),
        "options" => options(alloc, words),
        _ => Err(Fault::Unreadable),
    }
}

/// The words of a line, of which `''` is the empty one.
pub fn arguments_of(alloc: Global, line: &str) -> Result<Vec<String>, Fault> {
    let mut words = Vec::new(alloc);
    for word in line.split(' ') {
        let word = if word == "''" { "" } else { word };
        words.push(String::from_str(alloc, word)?)?;
    }
    Ok(words)
}

/// The command that the words spell.
fn command(alloc: Global, words: &[String]) -> Result<String, Fault> {
    let told = match command_of(alloc, words)? {
        Some(Command::Play) => "play",
        Some(
            Command::Create {
                size: _,
                relations: _,
            },
        ) => "create",
        Some(Command::Validate { json: false }) => "validate as text",
        Some(Command::Validate { json: true }) => "validate as JSON",
        None => "no command",
    };
    Ok(String::from_str(alloc, told)?)
}

/// A table of options made up for these rows: two switches, and two options with numbers.
fn table() -> [OptionRule; 4] {
    [
        switch(Padded::new(b"trace")),
        number(Padded::new(b"buffers"), 1, 64),
        number(Padded::new(b"budget"), 0, 4_294_967_295),
        switch(Padded::new(b"trace-more")),
    ]
}

fn switch(name: Padded<15>) -> OptionRule {
    OptionRule {
        name,
        takes: Takes::Nothing,
    }
}

fn number(name: Padded<15>, least: u32, most: u32) -> OptionRule {
    OptionRule {
        name,
        takes: Takes::Number { least, most },
    }
}

/// The options that the words give, each by its place in the table and with its number, and whether
/// the first one of the table is among them.
fn options(alloc: Global, words: &[String]) -> Result<String, Fault> {
    let Some(given) = options_of(alloc, &table(), words)? else {
        return Ok(String::from_str(alloc, "no options")?);
    };
    let mut out = String::new(alloc);
    for Given { option, number } in given.items() {
        write!(out, "{option}")?;
        if let Some(number) = number {
            write!(out, "={number}")?;
        }
        out.push_str(", ")?;
    }
    out.push_str(if is_given(given.items(), 0) {
        "traced"
    } else {
        "not traced"
    })?;
    Ok(out)
}
