//! The program `fbc_step_benchmarks` times the steps of a region, in which the second of two owners holds many
//! pages. Counts go to the standard output, and the seconds, which vary, to the standard error.
//!
//! - **Proved**: each part is safe and returns, and each step meets its conditions, with no test at run time.
//!   Of times nothing is proved; what was measured stands in docs/BENCHMARKS.md.
#![tactic(auto)]

mod idle;
mod steps;

ghost use Rattle.std.specs.Prelude.{◌≤◌};

use crate::idle::{Idle, count_uncalled, take_idle_steps, wait_for_page};
use crate::steps::{busy_region, take_steps};
use anyhow::{Result, bail};
use fbc_timing::{Spent, Start};
use fbc_world::Event;
use std::{env, mem};

const USAGE: &str =
    "usage: fbc_step_benchmarks steps|polls|notes|looks|calls HELD COUNT, as often as is wanted";

/// The most pages that the second owner holds.
const GREATEST: u32 = 1000;

/// The second owner, which holds the pages.
const HOLDER: u32 = 2;

fn main(rt: HostRuntime) -> Result<()> {
    let mut words = Vec::new(rt.alloc());
    for word in env::args(&rt)?.skip(1) {
        words.push(word)?;
    }
    if words.is_empty() || words.len() % 3 != 0 {
        bail!("{USAGE}");
    }
    for order in words.chunks_exact(3) {
        carry_out(&rt, order)?;
    }
    Ok(())
}

/// Carries out one order of three words.
fn carry_out(rt: &HostRuntime, words: &[String]) -> Result<()> {
    let [kind, held, count] = words else {
        bail!("{USAGE}");
    };
    let held = held.as_str().parse::<u32>()?;
    let count = count.as_str().parse::<u32>()?;
    if held > GREATEST {
        bail!("there is room for {GREATEST} pages");
    }
    match kind.as_str() {
        "steps" => time_steps(rt, held, count),
        "polls" => time_idle_steps(rt, Idle::Poll, held, count),
        "notes" => time_idle_steps(rt, Idle::Note, held, count),
        "looks" => time_looks(rt, held, count),
        "calls" => time_calls(rt, held, count),
        _ => bail!("{USAGE}"),
    }
}

/// The first owner takes so many steps in turn: an ask for a page, a look and its lowering.
fn time_steps(rt: &HostRuntime, held: u32, count: u32) -> Result<()>
    requires { held ≤ 1000 }
{
    let mut region = busy_region(rt.alloc(), held, count)?;
    let mut image = vec![in rt.alloc(); 0u8; 1024]?;
    let start = Start::now(rt)?;
    take_steps(count, &mut region, &mut image)?;
    let spent = start.spent(rt)?;
    let events = region.journal().length();
    println!(rt; "{count} steps beside {held} pages, {events} events in the journal")?;
    eprintln!(rt;
        "an event takes {} bytes in memory",
        mem::size_of::<Event>()
    )?;
    tell(rt, "steps", held, count, &spent)
}

/// The second owner takes so many steps that change no request.
fn time_idle_steps(rt: &HostRuntime, idle: Idle, held: u32, count: u32) -> Result<()>
    requires { held ≤ 1000 }
{
    let mut region = busy_region(rt.alloc(), held, count)?;
    let mut image = vec![in rt.alloc(); 0u8; 1024]?;
    let start = Start::now(rt)?;
    let due = take_idle_steps(idle, HOLDER, count, &mut region, &mut image)?;
    let spent = start.spent(rt)?;
    let what = match idle {
        Idle::Poll => "polls",
        Idle::Look => "looks",
        Idle::Note => "notes",
    };
    println!(rt; "{count} {what} beside {held} pages, {due} as due")?;
    tell(rt, what, held, count, &spent)
}

/// The first owner waits for a page of the second, and looks so many times.
fn time_looks(rt: &HostRuntime, held: u32, count: u32) -> Result<()>
    requires { held ≤ 1000 }
{
    let Some(steps) = count.checked_add(1) else {
        bail!("there is no room for so many looks");
    };
    let mut region = busy_region(rt.alloc(), held, steps)?;
    let mut image = vec![in rt.alloc(); 0u8; 1024]?;
    wait_for_page(&mut region, &mut image)?;
    let start = Start::now(rt)?;
    let due = take_idle_steps(Idle::Look, 1, count, &mut region, &mut image)?;
    let spent = start.spent(rt)?;
    println!(rt; "{count} looks beside {held} pages, {due} as due")?;
    tell(rt, "looks", held, count, &spent)
}

/// It is asked so many times whether somebody waits for a page of the second owner.
fn time_calls(rt: &HostRuntime, held: u32, count: u32) -> Result<()>
    requires { held ≤ 1000 }
{
    let region = busy_region(rt.alloc(), held, 0)?;
    let start = Start::now(rt)?;
    let uncalled = count_uncalled(HOLDER, count, &region);
    let spent = start.spent(rt)?;
    println!(rt; "{count} calls beside {held} pages, {uncalled} as due")?;
    tell(rt, "calls", held, count, &spent)
}

/// Tells how long so many things took.
fn tell(rt: &HostRuntime, what: &str, held: u32, count: u32, spent: &Spent) -> Result<()> {
    eprintln!(rt; "{count} {what} beside {held} pages in {spent}")?;
    eprintln!(rt; "{what} {held}: {:.1} ns each", spent.each(count))?;
    Ok(())
}
