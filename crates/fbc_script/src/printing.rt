//! Scripts to bytes.

ghost use Rattle.std.specs.Prelude.{◌≡◌, ◌++◌, ◌∷◌, [], ℕ, Bool, List, IfOk, OnOk};
ghost use Rattle.std.specs.Fmt.{decimal};
ghost use Rattle.fbc_levels.specs.Names.{name_of};
ghost use Rattle.fbc_script.specs.Scripts.{IsScript};
ghost use Rattle.fbc_script.specs.Spelling as spec;

use crate::script::{Line, Order, Script, Statement};
use fbc_levels::Level;
use fbc_outside::StepName;
use std::alloc::{AllocError, Global};

/// The spelling of a script: each line with its line feed, and empty lines for those passed over, so
/// that line numbers stay. Read in either form, it gives the script where some bytes did.
pub fn print(alloc: Global, script: &Script) -> Result<Vec<u8>, AllocError>
    ensures text { IfOk result (λ text. text.items ≡ spec.script_text script.now) }
    ensures reads_back { IfOk result (λ text. (threads : Bool) (bytes : List ℕ)
        → IsScript threads bytes script.now → IsScript threads text.items script.now) }
{
    let mut text = Vec::new(alloc);
    let mut kept = script.lines.items();
    for before in 0..script.length {
        kept = push_line(alloc, &mut text, before + 1, kept)?;
    }
    Ok(text)
}

/// Adds the line with this number, and gives the kept lines behind it.
fn push_line<'a>(
    alloc: Global,
    text: &mut Vec<u8>,
    number: u32,
    kept: &'a [Line],
) -> Result<&'a [Line], AllocError>
    ensures text { OnOk result (text.new.items ≡ text.old.items ++ spec.text_at number kept.now ++ 10 ∷ []) }
    ensures kept { IfOk result (λ behind. behind.now ≡ spec.kept_behind number kept.now) }
{
    let mut behind = kept;
    if let [line, others @ ..] = kept {
        if line.number == number {
            push_order(alloc, text, &line.order)?;
            behind = others;
        }
    }
    text.push(b'\n')?;
    Ok(behind)
}

/// Adds the words of a line.
fn push_order(alloc: Global, text: &mut Vec<u8>, order: &Order) -> Result<(), AllocError>
    ensures { OnOk result (text.new.items ≡ text.old.items ++ spec.order_text order.now) }
{
    match order {
        Order::Plain { at, statement } => {
            push_attachment(alloc, text, *at)?;
            push_statement(alloc, text, statement)
        }
        Order::Post { at, statement } => {
            text.extend_from_slice(b"post ")?;
            push_attachment(alloc, text, *at)?;
            push_statement(alloc, text, statement)
        }
        Order::Step { at, count } => {
            text.extend_from_slice(b"step ")?;
            push_attachment(alloc, text, *at)?;
            push_number(alloc, text, *count)
        }
        Order::Run => text.extend_from_slice(b"run"),
        Order::Kill { at } => {
            text.extend_from_slice(b"kill ")?;
            push_attachment(alloc, text, *at)
        }
        Order::Arm { at, trap } => {
            text.extend_from_slice(b"trap ")?;
            push_attachment(alloc, text, *at)?;
            push_word(text, step_word(trap.name))?;
            push_number(alloc, text, trap.count)
        }
        Order::Reopen => text.extend_from_slice(b"reopen"),
    }
}

/// Adds the words of a statement behind others.
fn push_statement(
    alloc: Global,
    text: &mut Vec<u8>,
    statement: &Statement,
) -> Result<(), AllocError>
    ensures { OnOk result (text.new.items ≡ text.old.items ++ spec.behind_spaces (spec.statement_words statement.now)) }
{
    match statement {
        Statement::Attach => push_word(text, b"attach"),
        Statement::Begin { wait } => {
            push_word(text, b"begin")?;
            push_word(text, mode_word(*wait))
        }
        Statement::Insert {
            relation,
            text: value,
        } => {
            push_word(text, b"insert")?;
            push_word(text, relation.as_bytes())?;
            push_word(text, value.as_bytes())
        }
        Statement::Update {
            relation,
            row,
            text: value,
        } => {
            push_word(text, b"update")?;
            push_word(text, relation.as_bytes())?;
            push_number(alloc, text, *row)?;
            push_word(text, value.as_bytes())
        }
        Statement::Delete { relation, row } => {
            push_word(text, b"delete")?;
            push_word(text, relation.as_bytes())?;
            push_number(alloc, text, *row)
        }
        Statement::Read { relation, row } => {
            push_word(text, b"read")?;
            push_word(text, relation.as_bytes())?;
            push_number(alloc, text, *row)
        }
        Statement::Scan { relation } => {
            push_word(text, b"scan")?;
            push_word(text, relation.as_bytes())
        }
        Statement::Reserve { relation, level } => {
            push_word(text, b"reserve")?;
            push_word(text, relation.as_bytes())?;
            push_level(alloc, text, *level)
        }
        Statement::Sweep => push_word(text, b"sweep"),
        Statement::Commit => push_word(text, b"commit"),
        Statement::Rollback => push_word(text, b"rollback"),
        Statement::Detach => push_word(text, b"detach"),
    }
}

/// Adds the word of an attachment.
fn push_attachment(alloc: Global, text: &mut Vec<u8>, at: u8) -> Result<(), AllocError>
    ensures { OnOk result (text.new.items ≡ text.old.items ++ spec.attachment_word at) }
{
    let word = format!(in alloc; "a{at}")?;
    text.extend_from_slice(word.as_bytes())
}

/// Adds a number behind other words.
fn push_number(alloc: Global, text: &mut Vec<u8>, number: u32) -> Result<(), AllocError>
    ensures { OnOk result (text.new.items ≡ text.old.items ++ 32 ∷ decimal number) }
{
    let word = format!(in alloc; "{number}")?;
    push_word(text, word.as_bytes())
}

/// Adds a level behind other words.
fn push_level(alloc: Global, text: &mut Vec<u8>, level: Level) -> Result<(), AllocError>
    ensures { OnOk result (text.new.items ≡ text.old.items ++ 32 ∷ name_of level) }
{
    let word = format!(in alloc; "{level}")?;
    push_word(text, word.as_bytes())
}

/// Adds a word behind others.
fn push_word(text: &mut Vec<u8>, word: &[u8]) -> Result<(), AllocError>
    ensures { OnOk result (text.new.items ≡ text.old.items ++ 32 ∷ word.now) }
{
    text.push(b' ')?;
    text.extend_from_slice(word)
}

fn mode_word(wait: bool) -> &'static [u8]
    ensures { result.now ≡ spec.mode_word wait }
{
    if wait { b"wait" } else { b"nowait" }
}

fn step_word(name: StepName) -> &'static [u8]
    ensures { result.now ≡ spec.step_word name }
{
    match name {
        StepName::Ask => b"ask",
        StepName::Look => b"look",
        StepName::Lower => b"lower",
        StepName::Read => b"read",
        StepName::Write => b"write",
        StepName::Callback => b"callback",
        StepName::Mark => b"mark",
        StepName::Poll => b"poll",
        StepName::Answer => b"answer",
    }
}
