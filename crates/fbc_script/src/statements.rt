//! Statements: a statement word and its arguments.

ghost use Rattle.std.specs.Prelude.{◌≡◌, MatchResult, Ok, Err};
ghost use Rattle.fbc_script.specs.Pieces.{words_of};
ghost use Rattle.fbc_script.specs.Statements as spec;

use crate::faults::Why;
use crate::pieces::split_piece;
use crate::script::Statement;
use crate::words::{read_level, read_mode, read_name, read_row, read_text};

/// The statement that words spell, or the first cause of their fault.
pub fn read_statement(words: &[u8]) -> Result<Statement, Why>
    ensures { result ≡ spec.read_statement (words_of words.now) }
{
    match split_piece(words, b' ') {
        Some((word, arguments)) => read_arguments(word, arguments),
        None => Err(Why::Count),
    }
}

/// The statement that a statement word and its arguments give.
fn read_arguments(word: &[u8], arguments: &[u8]) -> Result<Statement, Why>
    ensures { result ≡ spec.read_arguments word.now (words_of arguments.now) }
{
    if word == b"attach".as_slice() {
        read_bare(Statement::Attach, arguments)
    } else if word == b"begin".as_slice() {
        read_begin(arguments)
    } else if word == b"insert".as_slice() {
        read_insert(arguments)
    } else if word == b"update".as_slice() {
        read_update(arguments)
    } else if word == b"delete".as_slice() {
        read_delete(arguments)
    } else if word == b"read".as_slice() {
        read_read(arguments)
    } else if word == b"scan".as_slice() {
        read_scan(arguments)
    } else if word == b"reserve".as_slice() {
        read_reserve(arguments)
    } else if word == b"sweep".as_slice() {
        read_bare(Statement::Sweep, arguments)
    } else if word == b"commit".as_slice() {
        read_bare(Statement::Commit, arguments)
    } else if word == b"rollback".as_slice() {
        read_bare(Statement::Rollback, arguments)
    } else if word == b"detach".as_slice() {
        read_bare(Statement::Detach, arguments)
    } else {
        Err(Why::Word)
    }
}

/// A statement without arguments.
fn read_bare(statement: Statement, arguments: &[u8]) -> Result<Statement, Why>
    ensures { result ≡ spec.read_bare statement (words_of arguments.now) }
{
    no_words(arguments)?;
    Ok(statement)
}

fn read_begin(arguments: &[u8]) -> Result<Statement, Why>
    ensures { result ≡ spec.read_begin (words_of arguments.now) }
{
    let mode = one_word(arguments)?;
    let wait = read_mode(mode)?;
    Ok(Statement::Begin { wait })
}

fn read_insert(arguments: &[u8]) -> Result<Statement, Why>
    ensures { result ≡ spec.read_insert (words_of arguments.now) }
{
    let (name, value) = two_words(arguments)?;
    let relation = read_name(name)?;
    let text = read_text(value)?;
    Ok(Statement::Insert { relation, text })
}

fn read_update(arguments: &[u8]) -> Result<Statement, Why>
    ensures { result ≡ spec.read_update (words_of arguments.now) }
{
    let (name, number, value) = three_words(arguments)?;
    let relation = read_name(name)?;
    let row = read_row(number)?;
    let text = read_text(value)?;
    Ok(Statement::Update {
        relation,
        row,
        text,
    })
}

fn read_delete(arguments: &[u8]) -> Result<Statement, Why>
    ensures { result ≡ spec.read_delete (words_of arguments.now) }
{
    let (name, number) = two_words(arguments)?;
    let relation = read_name(name)?;
    let row = read_row(number)?;
    Ok(Statement::Delete { relation, row })
}

fn read_read(arguments: &[u8]) -> Result<Statement, Why>
    ensures { result ≡ spec.read_read (words_of arguments.now) }
{
    let (name, number) = two_words(arguments)?;
    let relation = read_name(name)?;
    let row = read_row(number)?;
    Ok(Statement::Read { relation, row })
}

fn read_scan(arguments: &[u8]) -> Result<Statement, Why>
    ensures { result ≡ spec.read_scan (words_of arguments.now) }
{
    let name = one_word(arguments)?;
    let relation = read_name(name)?;
    Ok(Statement::Scan { relation })
}

fn read_reserve(arguments: &[u8]) -> Result<Statement, Why>
    ensures { result ≡ spec.read_reserve (words_of arguments.now) }
{
    let (name, word) = two_words(arguments)?;
    let relation = read_name(name)?;
    let level = read_level(word)?;
    Ok(Statement::Reserve { relation, level })
}

/// No words.
pub fn no_words(words: &[u8]) -> Result<(), Why>
    ensures { MatchResult result (λ _. spec.no_words (words_of words.now) ≡ Ok tt) (λ e. spec.no_words (words_of words.now) ≡ Err e) }
{
    match split_piece(words, b' ') {
        None => Ok(()),
        Some(_) => Err(Why::Count),
    }
}

/// One word and no others.
pub fn one_word(words: &[u8]) -> Result<&[u8], Why>
    ensures { MatchResult result (λ w. spec.one_word (words_of words.now) ≡ Ok w.now) (λ e. spec.one_word (words_of words.now) ≡ Err e) }
{
    let (first, rest) = split_piece(words, b' ').ok_or(Why::Count)?;
    no_words(rest)?;
    Ok(first)
}

/// Two words and no others.
pub fn two_words(words: &[u8]) -> Result<(&[u8], &[u8]), Why>
    ensures { MatchResult result (λ w. spec.two_words (words_of words.now) ≡ Ok (w.0.now, w.1.now)) (λ e. spec.two_words (words_of words.now) ≡ Err e) }
{
    let (first, rest) = split_piece(words, b' ').ok_or(Why::Count)?;
    let second = one_word(rest)?;
    Ok((first, second))
}

/// Three words and no others.
pub fn three_words(words: &[u8]) -> Result<(&[u8], &[u8], &[u8]), Why>
    ensures { MatchResult result (λ w. spec.three_words (words_of words.now) ≡ Ok (w.0.now, w.1.now, w.2.now))
        (λ e. spec.three_words (words_of words.now) ≡ Err e) }
{
    let (first, rest) = split_piece(words, b' ').ok_or(Why::Count)?;
    let (second, third) = two_words(rest)?;
    Ok((first, second, third))
}
