//! Lines: an attachment's statement, or a line word with what it needs.

ghost use Rattle.std.specs.Prelude.{◌≡◌, MatchResult, Ok, Err};
ghost use Rattle.fbc_script.specs.Pieces.{words_of};
ghost use Rattle.fbc_script.specs.Orders as spec;

use crate::faults::Why;
use crate::pieces::{is_spaced, split_piece};
use crate::script::{Order, Trap};
use crate::statements::{no_words, one_word, read_statement, two_words};
use crate::words::{read_attachment, read_count, read_step};

/// What a line that is not passed over asks for, or the first cause of its fault.
pub fn read_line(threads: bool, line: &[u8]) -> Result<Order, Why>
    ensures { result ≡ spec.read_line threads line.now }
{
    if !is_spaced(line) {
        return Err(Why::Space);
    }
    match split_piece(line, b' ') {
        Some((word, words)) => read_order_from(threads, word, words),
        None => Err(Why::Count),
    }
}

/// The line that a first word and the words behind it spell.
fn read_order_from(threads: bool, word: &[u8], words: &[u8]) -> Result<Order, Why>
    ensures { result ≡ spec.read_order_from threads word.now (words_of words.now) }
{
    if word == b"kill".as_slice() {
        read_kill(words)
    } else if word == b"trap".as_slice() {
        read_trap(words)
    } else if !threads && word == b"post".as_slice() {
        read_post(words)
    } else if !threads && word == b"step".as_slice() {
        read_steps(words)
    } else if !threads && word == b"run".as_slice() {
        read_lone(Order::Run, words)
    } else if !threads && word == b"reopen".as_slice() {
        read_lone(Order::Reopen, words)
    } else {
        read_plain(word, words)
    }
}

/// An attachment's statement.
fn read_plain(name: &[u8], words: &[u8]) -> Result<Order, Why>
    ensures { result ≡ spec.read_plain name.now (words_of words.now) }
{
    let at = read_attachment(name)?;
    let statement = read_statement(words)?;
    Ok(Order::Plain { at, statement })
}

fn read_post(words: &[u8]) -> Result<Order, Why>
    ensures { result ≡ spec.read_post (words_of words.now) }
{
    let (at, rest) = read_at(words)?;
    let statement = read_statement(rest)?;
    Ok(Order::Post { at, statement })
}

fn read_steps(words: &[u8]) -> Result<Order, Why>
    ensures { result ≡ spec.read_steps (words_of words.now) }
{
    let (at, rest) = read_at(words)?;
    let number = one_word(rest)?;
    let count = read_count(number)?;
    Ok(Order::Step { at, count })
}

fn read_kill(words: &[u8]) -> Result<Order, Why>
    ensures { result ≡ spec.read_kill (words_of words.now) }
{
    let (at, rest) = read_at(words)?;
    no_words(rest)?;
    Ok(Order::Kill { at })
}

fn read_trap(words: &[u8]) -> Result<Order, Why>
    ensures { result ≡ spec.read_trap (words_of words.now) }
{
    let (at, rest) = read_at(words)?;
    let (step, number) = two_words(rest)?;
    let name = read_step(step)?;
    let count = read_count(number)?;
    Ok(Order::Arm {
        at,
        trap: Trap { name, count },
    })
}

/// A line word without more.
fn read_lone(order: Order, words: &[u8]) -> Result<Order, Why>
    ensures { result ≡ spec.read_lone order (words_of words.now) }
{
    no_words(words)?;
    Ok(order)
}

/// An attachment in its place and the words behind it.
fn read_at(words: &[u8]) -> Result<(u8, &[u8]), Why>
    ensures { MatchResult result (λ w. spec.read_at (words_of words.now) ≡ Ok (w.0, words_of w.1.now)) (λ e. spec.read_at (words_of words.now) ≡ Err e) }
{
    let (name, rest) = split_piece(words, b' ').ok_or(Why::Count)?;
    let at = read_attachment(name)?;
    Ok((at, rest))
}
