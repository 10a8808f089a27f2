//! Scripts: the cause of the first faulty line, what lines ask for, and how a script is printed.

use crate::quotes::quoted;
use fbc_samples::{Fault, push_bytes, push_lines};
use fbc_script::{
    Line, Order, ParseFault, Script, SingleTransaction, Statement, parse, print, single_transaction,
};
use std::alloc::Global;

/// How many bytes a script of the tables may have.
const GREATEST: usize = 10_000_000;

/// Answers one line: what is told of a script, and the script in quotes. A faulty script is answered
/// with the number of its first faulty line, and the cause.
pub fn answer(alloc: Global, line: &str) -> Result<String, Fault> {
    let (what, text) = line.split_once(' ').ok_or(Fault::Unreadable)?;
    let bytes = quoted(alloc, text)?;
    if bytes.len() > GREATEST {
        return Err(Fault::Unreadable);
    }
    match parse(alloc, &bytes, what == "threads") {
        Ok(script) => told(alloc, what, &script),
        Err(ParseFault::Script(fault)) => Ok(format!(in alloc; "{fault}")?),
        Err(ParseFault::Memory) => Err(Fault::Memory),
    }
}

/// What is told of a script: how many of its lines are orders, what they ask for, how it is printed,
/// or how many steps its single transaction has.
fn told(alloc: Global, what: &str, script: &Script) -> Result<String, Fault> {
    match what {
        "read" | "threads" => {
            let orders = script.lines.len();
            Ok(format!(in alloc; "{orders} of {} lines", script.length)?)
        }
        "orders" => orders_of(alloc, script),
        "print" => printed(alloc, script),
        "single" => single(alloc, script),
        _ => Err(Fault::Unreadable),
    }
}

/// The script's text, with `\n` for the end of a line.
fn printed(alloc: Global, script: &Script) -> Result<String, Fault> {
    let text = print(alloc, script)?;
    let mut out = String::new(alloc);
    push_lines(&text, &mut out)?;
    Ok(out)
}

fn single(alloc: Global, script: &Script) -> Result<String, Fault> {
    match single_transaction(alloc, script)? {
        Some(SingleTransaction::Absent) => Ok(String::from_str(alloc, "absent")?),
        Some(SingleTransaction::Steps(steps)) => Ok(format!(in alloc; "{} steps", steps.len())?),
        None => Ok(String::from_str(alloc, "no single transaction")?),
    }
}

/// How many lines the script has, and its orders behind their lines' numbers.
fn orders_of(alloc: Global, script: &Script) -> Result<String, Fault> {
    let mut out = format!(in alloc; "{} lines", script.length)?;
    for Line { number, order } in script.lines.items() {
        write!(out, "; {number} ")?;
        push_order(order, &mut out)?;
    }
    Ok(out)
}

/// Adds what an order says.
fn push_order(order: &Order, out: &mut String) -> Result<(), Fault> {
    match order {
        Order::Plain { at, statement } => {
            write!(out, "plain at={at} ")?;
            push_statement(statement, out)?;
        }
        Order::Post { at, statement } => {
            write!(out, "post at={at} ")?;
            push_statement(statement, out)?;
        }
        Order::Step { at, count } => write!(out, "step at={at} count={count}")?,
        Order::Run => out.push_str("run")?,
        Order::Kill { at } => write!(out, "kill at={at}")?,
        Order::Arm { at, trap } => {
            write!(out, "arm at={at} name={:?} count={}", trap.name, trap.count)?
        }
        Order::Reopen => out.push_str("reopen")?,
    }
    Ok(())
}

/// Adds what a statement says.
fn push_statement(statement: &Statement, out: &mut String) -> Result<(), Fault> {
    match statement {
        Statement::Attach => out.push_str("attach")?,
        Statement::Begin { wait } => write!(out, "begin wait={wait}")?,
        Statement::Insert { relation, text } => {
            push_field("insert relation=", relation.as_bytes(), out)?;
            push_field(" text=", text.as_bytes(), out)?;
        }
        Statement::Update {
            relation,
            row,
            text,
        } => {
            push_field("update relation=", relation.as_bytes(), out)?;
            write!(out, " row={row}")?;
            push_field(" text=", text.as_bytes(), out)?;
        }
        Statement::Delete { relation, row } => {
            push_field("delete relation=", relation.as_bytes(), out)?;
            write!(out, " row={row}")?;
        }
        Statement::Read { relation, row } => {
            push_field("read relation=", relation.as_bytes(), out)?;
            write!(out, " row={row}")?;
        }
        Statement::Scan { relation } => push_field("scan relation=", relation.as_bytes(), out)?,
        Statement::Reserve { relation, level } => {
            push_field("reserve relation=", relation.as_bytes(), out)?;
            write!(out, " level={level}")?;
        }
        Statement::Sweep => out.push_str("sweep")?,
        Statement::Commit => out.push_str("commit")?,
        Statement::Rollback => out.push_str("rollback")?,
        Statement::Detach => out.push_str("detach")?,
    }
    Ok(())
}

/// Adds bytes behind their name.
fn push_field(name: &str, bytes: &[u8], out: &mut String) -> Result<(), Fault> {
    out.push_str(name)?;
    push_bytes(bytes, out)
}
