//! The program `fbc_script_tables`: it reads tables of cases from the standard input, a row in a line,
//! and writes each row with its answer. The rows are command lines, scripts, and calls of the console.
//! Beside it stand the tables, and the answers that are due.
#![tactic(auto)]

mod calls;
mod commands;
mod failures;
mod quotes;
mod scripts;
mod tables;

use crate::tables::answered;
use anyhow::Result;
use std::io;

fn main(rt: HostRuntime) -> Result<()> {
    let text = io::read_to_string(rt.alloc(), rt.reader())?;
    let answers = answered(rt.alloc(), &text)?;
    print!(rt; "{answers}")?;
    Ok(())
}
