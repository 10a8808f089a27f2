//! The program `fbc_lock_benchmarks` times the lock table and its callbacks alone. Counts go to the standard
//! output, and the seconds, which vary, to the standard error.
//!
//! - **Proved**: each part is safe and returns, and calls the lock table where its conditions hold. Of times
//!   nothing is proved; what was measured stands in docs/BENCHMARKS.md.
#![tactic(auto)]

mod tables;

use crate::tables::{count_callbacks, full_table, take_and_lower, wait_for_first};
use anyhow::{Result, bail};
use fbc_timing::Start;
use std::env;

const USAGE: &str =
    "usage: fbc_lock_benchmarks callbacks|waits|asks OWNERS PAGES COUNT, as often as is wanted";

/// What is timed.
#[derive(Clone, Copy)]
enum Kind {
    /// Callbacks that an owner asks for while nobody waits.
    Callbacks,
    /// Callbacks that an owner asks for while another waits for its first page.
    Waits,
    /// Asks for one more page, and its lowering to none.
    Asks,
}

fn main(rt: HostRuntime) -> Result<()> {
    let mut words = Vec::new(rt.alloc());
    for word in env::args(&rt)?.skip(1) {
        words.push(word)?;
    }
    if words.is_empty() || words.len() % 4 != 0 {
        bail!("{USAGE}");
    }
    for order in words.chunks_exact(4) {
        carry_out(&rt, order)?;
    }
    Ok(())
}

/// Carries out one order of four words.
fn carry_out(rt: &HostRuntime, words: &[String]) -> Result<()> {
    let [kind, owners, pages, count] = words else {
        bail!("{USAGE}");
    };
    let kind = kind_of(kind.as_str())?;
    let owners = owners.as_str().parse::<u32>()?;
    let pages = pages.as_str().parse::<u32>()?;
    measure(rt, kind, owners, pages, count.as_str().parse::<u32>()?)
}

/// The kind of this name.
fn kind_of(word: &str) -> Result<Kind> {
    match word {
        "callbacks" => Ok(Kind::Callbacks),
        "waits" => Ok(Kind::Waits),
        "asks" => Ok(Kind::Asks),
        _ => bail!("{USAGE}"),
    }
}

/// Does so many things of this kind beside so many owners with so many pages each.
fn measure(rt: &HostRuntime, kind: Kind, owners: u32, pages: u32, count: u32) -> Result<()> {
    match kind {
        Kind::Callbacks => measure_callbacks(rt, owners, pages, false, count),
        Kind::Waits => measure_callbacks(rt, owners, pages, true, count),
        Kind::Asks => measure_asks(rt, owners, pages, count),
    }
}

/// Asks for callbacks so many times in each of two tables, with one more owner waiting or none.
fn measure_callbacks(
    rt: &HostRuntime,
    owners: u32,
    pages: u32,
    waits: bool,
    rounds: u32,
) -> Result<()> {
    let mut tables = Vec::new(rt.alloc());
    for _ in 0..2 {
        let mut table = full_table(rt.alloc(), owners, pages)?;
        if waits {
            wait_for_first(&mut table, owners.saturating_add(1))?;
        }
        tables.push(table)?;
    }
    let start = Start::now(rt)?;
    let found = count_callbacks(&tables, rounds);
    let spent = start.spent(rt)?;
    let count = rounds.saturating_mul(2);
    let what = if waits { "waits" } else { "callbacks" };
    println!(rt; "{count} {what} beside {owners} times {pages} pages, {found} callbacks found")?;
    eprintln!(rt; "{what} {owners} {pages}: {:.1} ns each", spent.each(count))?;
    Ok(())
}

/// One more owner takes a page and gives it back, so many times.
fn measure_asks(rt: &HostRuntime, owners: u32, pages: u32, count: u32) -> Result<()> {
    let mut table = full_table(rt.alloc(), owners, pages)?;
    let start = Start::now(rt)?;
    let taken = take_and_lower(&mut table, count)?;
    let spent = start.spent(rt)?;
    println!(rt; "{count} asks beside {owners} times {pages} pages, {taken} of them granted")?;
    eprintln!(rt; "asks {owners} {pages}: {:.1} ns each", spent.each(count))?;
    Ok(())
}
