//! The answers to the statements of a transaction, and the lines that tell them.

ghost use Rattle.std.specs.Prelude.{◌≡◌, ◌++◌, OnOk, IfOk};
ghost use Rattle.std.specs.Fmt.{decimal};
ghost use Rattle.fbc_console.specs.Transaction.{answer_line, answer_text};

use fbc_kinds::Value;
use std::alloc::{AllocError, Global};

/// What a statement is answered.
#[derive(Clone, Copy, Debug, PartialEq, Eq)]
pub enum Answer {
    /// It is done.
    Ok,
    /// The read sees this value.
    Value(Value),
    /// The read sees nothing.
    None,
    /// The insert took this row.
    Row(u32),
    /// The transaction has this number.
    Number(u32),
}

/// The line that answers the statement on the script's line `number`.
pub fn line_of(alloc: Global, number: u32, answer: &Answer) -> Result<Vec<u8>, AllocError>
    ensures { IfOk result (λ line. line.items ≡ answer_line number answer.now) }
{
    let mut line = Vec::new(alloc);
    put_number(alloc, &mut line, number)?;
    line.extend_from_slice(b" a1 ")?;
    put_answer(alloc, &mut line, answer)?;
    line.push(b'\n')?;
    Ok(line)
}

fn put_number(alloc: Global, line: &mut Vec<u8>, number: u32) -> Result<(), AllocError>
    ensures { OnOk result (line.new.items ≡ line.old.items ++ decimal number) }
{
    let digits = format!(in alloc; "{number}")?;
    line.extend_from_slice(digits.as_bytes())
}

fn put_answer(alloc: Global, line: &mut Vec<u8>, answer: &Answer) -> Result<(), AllocError>
    ensures { OnOk result (line.new.items ≡ line.old.items ++ answer_text answer.now) }
{
    match answer {
        Answer::Ok => line.extend_from_slice(b"ok"),
        Answer::Value(value) => {
            line.extend_from_slice(b"value ")?;
            line.extend_from_slice(value.as_bytes())
        }
        Answer::None => line.extend_from_slice(b"none"),
        Answer::Row(row) => {
            line.extend_from_slice(b"row ")?;
            put_number(alloc, line, *row)
        }
        Answer::Number(number) => {
            line.extend_from_slice(b"transaction ")?;
            put_number(alloc, line, *number)
        }
    }
}
