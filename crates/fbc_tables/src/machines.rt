//! Small machines: one line has the commands that a machine without rows is given, one after the
//! other, between semicolons, and is answered with the replies.

use crate::values::value_of;
use fbc_kinds::{Command, Reply};
use fbc_machine::{Machine, may_come, step};
use fbc_samples::{Fault, push_bytes, words_of};
use std::alloc::Global;

/// Answers one line.
pub fn answer(alloc: Global, line: &str) -> Result<String, Fault> {
    let mut machine = Machine::new(alloc)?;
    let mut out = String::new(alloc);
    for call in line.split("; ") {
        if !out.is_empty() {
            out.push_str("; ")?;
        }
        let words = words_of(alloc, call)?;
        let command = command_of(&words)?;
        if may_come(&machine, &command) {
            let reply = step(&mut machine, &command)?;
            push_reply(&reply, &mut out)?;
        } else {
            out.push_str("may not come")?;
        }
    }
    Ok(out)
}

/// The command that words say: its name and its numbers in the order of its fields. The relation is
/// the first one.
fn command_of(words: &[&str]) -> Result<Command, Fault> {
    match *words {
        ["begin", who, number] => Ok(Command::Begin {
            who: who.parse()?,
            number: number.parse()?,
        }),
        ["insert", who, row, value] => Ok(Command::Insert {
            who: who.parse()?,
            relation: 0,
            row: row.parse()?,
            value: value_of(value)?,
        }),
        ["update", who, row, value] => Ok(Command::Update {
            who: who.parse()?,
            relation: 0,
            row: row.parse()?,
            value: value_of(value)?,
        }),
        ["delete", who, row] => Ok(Command::Delete {
            who: who.parse()?,
            relation: 0,
            row: row.parse()?,
        }),
        ["read", who, row] => Ok(Command::Read {
            who: who.parse()?,
            relation: 0,
            row: row.parse()?,
        }),
        ["scan", who] => Ok(Command::Scan {
            who: who.parse()?,
            relation: 0,
        }),
        ["commit", who] => Ok(Command::Commit { who: who.parse()? }),
        ["rollback", who] => Ok(Command::Rollback { who: who.parse()? }),
        ["kill", who] => Ok(Command::Kill { who: who.parse()? }),
        _ => Err(Fault::Unreadable),
    }
}

/// Adds what a reply says.
fn push_reply(reply: &Reply, out: &mut String) -> Result<(), Fault> {
    match reply {
        Reply::Ok => out.push_str("ok")?,
        Reply::None => out.push_str("none")?,
        Reply::NoRow => out.push_str("no row")?,
        Reply::NoTransaction => out.push_str("no transaction")?,
        Reply::AlreadyOpen => out.push_str("already open")?,
        Reply::Row { row } => write!(out, "row {row}")?,
        Reply::Number { number } => write!(out, "transaction {number}")?,
        Reply::Conflict { n } => write!(out, "conflict {n}")?,
        Reply::Value { value } => {
            out.push_str("value ")?;
            push_bytes(value.as_bytes(), out)?;
        }
        Reply::Rows { rows } => {
            out.push_str("rows")?;
            for (row, value) in rows.items() {
                write!(out, " {row}=")?;
                push_bytes(value.as_bytes(), out)?;
            }
        }
        _ => out.push_str("another reply")?,
    }
    Ok(())
}
