//! The program `fbc_tables`: it reads tables of cases from the standard input, a row in a line, and
//! writes each row with its answer. Beside it stand the tables, and the answers that are due.
#![tactic(auto)]

mod built;
mod checks;
mod codecs;
mod edits;
mod files;
mod levels;
mod machines;
mod pages;
mod spellings;
mod tables;
mod values;

use crate::tables::answered;
use anyhow::{Result, bail};
use fbc_samples::{shape, wide_shape};
use std::io;

fn main(rt: HostRuntime) -> Result<()> {
    let (Some(shape), Some(wide)) = (shape(), wide_shape()) else {
        bail!("the fresh file has no shape");
    };
    let text = io::read_to_string(rt.alloc(), rt.reader())?;
    let answers = answered(rt.alloc(), &shape, &wide, &text)?;
    print!(rt; "{answers}")?;
    Ok(())
}
