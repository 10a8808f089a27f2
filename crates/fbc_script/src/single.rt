//! Scripts of a single transaction over one relation.

ghost use Rattle.std.specs.Prelude.{◌≡◌, IfOk};
ghost use Rattle.fbc_script.specs.SingleTransaction as spec;

use crate::script::{Line, Order, Script, Statement, Text};
use fbc_kinds::{Listed, Name};
use std::alloc::{AllocError, Global};

/// The relation of such a script.
const RELATION: &[u8; 1] = b"t";

/// How many inserts such a script may have.
const INSERTS: usize = 45;

/// What a line between begin and commit asks for.
#[derive(Clone, Copy, Debug, PartialEq, Eq)]
pub enum Step {
    Insert { text: Text },
    Read { row: u32 },
}

/// What a script of at most one transaction asks for.
#[derive(Debug, Drop)]
pub enum SingleTransaction {
    /// Nothing: the script is empty.
    Absent,
    /// These steps between begin and commit: step `i` is line `i + 3`, and commit the last line.
    Steps(Listed<Step>),
}

/// What the script asks for, where it is empty or one waiting transaction of attachment 1 over the
/// relation `t`: no line is passed over, at most 45 inserts, each of 1 to 10 bytes.
pub fn single_transaction(
    alloc: Global,
    script: &Script,
) -> Result<Option<SingleTransaction>, AllocError>
    ensures { IfOk result (λ found. spec.Tells found script.now) }
{
    if script.length as usize == script.lines.len() {
        asked_by(alloc, script.lines.items())
    } else {
        Ok(None)
    }
}

/// What these lines ask for, if they are those of at most one transaction.
fn asked_by(alloc: Global, lines: &[Line]) -> Result<Option<SingleTransaction>, AllocError>
    ensures { IfOk result (λ found. found ≡ spec.asked_by lines.now) }
{
    match lines {
        [] => Ok(Some(SingleTransaction::Absent)),
        [_] => Ok(None),
        [attach, begin, rest @ ..] => {
            if is_opening(attach, begin) {
                few_steps(alloc, rest)
            } else {
                Ok(None)
            }
        }
    }
}

/// The steps up to the commit, if inserts are few enough.
fn few_steps(alloc: Global, lines: &[Line]) -> Result<Option<SingleTransaction>, AllocError>
    ensures { IfOk result (λ found. found ≡ spec.few_steps lines.now) }
{
    match steps_to_commit(alloc, lines)? {
        Some(steps) if has_few_inserts(steps.items()) => Ok(Some(SingleTransaction::Steps(steps))),
        _ => Ok(None),
    }
}

/// The steps up to the commit, if it ends the lines and all before it are steps.
fn steps_to_commit(alloc: Global, lines: &[Line]) -> Result<Option<Listed<Step>>, AllocError>
    ensures { IfOk result (λ found. found ≡ spec.steps_to_commit lines.now) }
{
    let mut steps = Listed::new(Vec::new(alloc));
    for (at, line) in lines.iter().enumerate() {
        if is_commit(line) {
            return Ok(if at + 1 == lines.len() {
                Some(steps)
            } else {
                None
            });
        }
        match step_of(line) {
            Some(step) => steps.push(step)?,
            None => return Ok(None),
        }
    }
    Ok(None)
}

/// Whether these two lines attach and begin.
fn is_opening(attach: &Line, begin: &Line) -> bool
    ensures { result ≡ spec.is_opening attach.now begin.now }
{
    is_attach(attach) && is_begin(begin)
}

fn is_attach(line: &Line) -> bool
    ensures { result ≡ spec.is_attach line.now.order }
{
    match line.order {
        Order::Plain {
            at,
            statement: Statement::Attach,
        } => at == 1,
        _ => false,
    }
}

fn is_begin(line: &Line) -> bool
    ensures { result ≡ spec.is_begin line.now.order }
{
    match line.order {
        Order::Plain {
            at,
            statement: Statement::Begin { wait },
        } => at == 1 && wait,
        _ => false,
    }
}

fn is_commit(line: &Line) -> bool
    ensures { result ≡ spec.is_commit line.now.order }
{
    match line.order {
        Order::Plain {
            at,
            statement: Statement::Commit,
        } => at == 1,
        _ => false,
    }
}

/// The step that a line asks for.
fn step_of(line: &Line) -> Option<Step>
    ensures { result ≡ spec.step_of line.now.order }
{
    match line.order {
        Order::Plain {
            at,
            statement: Statement::Insert { relation, text },
        } if is_here(at, &relation) && is_short(&text) => Some(Step::Insert { text }),
        Order::Plain {
            at,
            statement: Statement::Read { relation, row },
        } if is_here(at, &relation) => Some(Step::Read { row }),
        _ => None,
    }
}

/// Whether it is asked of attachment 1 over the relation.
fn is_here(at: u8, relation: &Name) -> bool
    ensures { result ≡ spec.is_here at relation.now }
{
    at == 1 && relation.as_bytes() == RELATION.as_slice()
}

/// Whether a text has 1 to 10 bytes.
fn is_short(text: &Text) -> bool
    ensures { result ≡ spec.is_short text.now }
{
    let length = text.as_bytes().len();
    1 <= length && length <= 10
}

/// Whether inserts are few enough.
fn has_few_inserts(steps: &[Step]) -> bool
    ensures { result ≡ spec.has_few_inserts steps.now }
{
    steps.iter().filter(|step| is_insert(step)).count() <= INSERTS
}

fn is_insert(step: &Step) -> bool
    ensures { result ≡ spec.is_insert step.now }
{
    match step {
        Step::Insert { text: _ } => true,
        Step::Read { row: _ } => false,
    }
}
