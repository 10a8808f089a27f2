//! The program `fbc_benchmarks`: `pages COUNT` times the codecs of pages beside a plain copy, and `script
//! BYTES` the reading of scripts. What it counts goes to the standard output and the seconds, which vary, to
//! the standard error. `file SIZE PAGES PATH` makes a sound file for the check of files to be timed over, and
//! `caches BUFFERS COUNT` times the wants of a cache.
//!
//! - **Proved**: each part is safe and returns, and calls the libraries where their conditions hold. Of times
//!   nothing is proved; what was measured stands in docs/BENCHMARKS.md.
#![tactic(auto)]

mod caches;
mod files;
mod pages;
mod plans;
mod scripts;

ghost use Rattle.std.specs.Prelude.{◌*◌, ◌<◌};

use crate::caches::{full_cache, need_of, want_often};
use crate::files::write_file;
use crate::pages::{copy_pages, recode_pages, sample_pages};
use crate::plans::Plan;
use crate::scripts::{PAIR, script_of};
use anyhow::{Result, bail};
use fbc_cache::Cache;
use fbc_script::{Line, parse};
use fbc_timing::Start;
use std::fs::File;
use std::{env, mem};

const USAGE: &str =
    "usage: fbc_benchmarks pages COUNT | script BYTES | file SIZE PAGES PATH | caches BUFFERS COUNT ..";

/// The greatest script that is asked for, in bytes.
const GREATEST: usize = 1_000_000_000;

fn main(rt: HostRuntime) -> Result<()> {
    let mut words = Vec::new(rt.alloc());
    for word in env::args(&rt)?.skip(1) {
        words.push(word)?;
    }
    if words.is_empty() {
        bail!("{USAGE}");
    }
    let mut rest = words.as_slice();
    for _ in 0..words.len() {
        if !rest.is_empty() {
            rest = carry_out(&rt, rest)?;
        }
    }
    Ok(())
}

/// Carries out the first order of these words, and answers the words behind it.
fn carry_out<'a>(rt: &HostRuntime, words: &'a [String]) -> Result<&'a [String]> {
    match words {
        [word, count, rest @ ..] if word.as_str() == "pages" => {
            time_pages(rt, count.as_str().parse::<u64>()?)?;
            Ok(rest)
        }
        [word, bytes, rest @ ..] if word.as_str() == "script" => {
            time_scripts(rt, bytes.as_str().parse::<usize>()?)?;
            Ok(rest)
        }
        [word, size, pages, path, rest @ ..] if word.as_str() == "file" => {
            let size = size.as_str().parse::<u32>()?;
            make_file(rt, size, pages.as_str().parse::<u32>()?, path.as_str())?;
            Ok(rest)
        }
        [word, buffers, count, rest @ ..] if word.as_str() == "caches" => {
            let buffers = buffers.as_str().parse::<u32>()?;
            time_caches(rt, buffers, count.as_str().parse::<u32>()?)?;
            Ok(rest)
        }
        _ => bail!("{USAGE}"),
    }
}

/// Makes a sound file with so many data pages.
fn make_file(rt: &HostRuntime, size: u32, data_pages: u32, path: &str) -> Result<()> {
    let Some(plan) = Plan::new(size, data_pages) else {
        bail!("there is no file of {data_pages} data pages of {size} bytes");
    };
    let mut file = File::create(rt, path)?;
    let pages = write_file(rt.alloc(), &plan, &mut file)?;
    println!(rt; "{pages} pages of {size} bytes, {data_pages} of them data pages")?;
    Ok(())
}

/// Reads and writes so many pages of the five kinds in turn, and copies as many.
fn time_pages(rt: &HostRuntime, count: u64) -> Result<()> {
    let pages = sample_pages(rt.alloc())?;
    let mut out = vec![in rt.alloc(); 0u8; 4096]?;
    let start = Start::now(rt)?;
    recode_pages(rt.alloc(), count, &pages, &mut out)?;
    let recoding = start.spent(rt)?;
    let start = Start::now(rt)?;
    copy_pages(count, &pages, &mut out);
    let copying = start.spent(rt)?;
    println!(rt; "{count} pages decoded and encoded, {count} pages copied")?;
    eprintln!(rt; "decoded and encoded in {recoding}")?;
    eprintln!(rt; "copied in {copying}")?;
    Ok(())
}

/// Reads a script of about so many bytes, and one of twice as many lines.
fn time_scripts(rt: &HostRuntime, bytes: usize) -> Result<()> {
    if bytes > GREATEST {
        bail!("a script has at most {GREATEST} bytes");
    }
    let pairs = bytes / PAIR.len();
    eprintln!(rt; "a line takes {} bytes in memory", mem::size_of::<Line>())?;
    time_script(rt, pairs)?;
    time_script(rt, 2 * pairs)
}

/// Reads a script of so many pairs of lines.
fn time_script(rt: &HostRuntime, pairs: usize) -> Result<()>
    requires { 49 * pairs < 4294967295 }
{
    let bytes = script_of(rt.alloc(), pairs)?;
    let start = Start::now(rt)?;
    let Ok(script) = parse(rt.alloc(), &bytes, false) else {
        bail!("the script was not read");
    };
    let reading = start.spent(rt)?;
    let count = script.lines.len();
    println!(rt; "{} bytes, {count} lines", bytes.len())?;
    eprintln!(rt; "{count} lines read in {reading}")?;
    Ok(())
}

/// Wants a page that is held, and then one that is not, so many times each, in a cache of which all buffers but one are pinned.
fn time_caches(rt: &HostRuntime, buffers: u32, count: u32) -> Result<()> {
    let mut cache = full_cache(rt.alloc(), buffers)?;
    time_wants(rt, &mut cache, buffers, count)?;
    time_wants(rt, &mut cache, buffers.saturating_add(1), count)
}

/// Wants a page so many times.
fn time_wants(rt: &HostRuntime, cache: &mut Cache, page: u32, count: u32) -> Result<()> {
    let need = need_of(page);
    if !cache.may_want(&need) {
        bail!("page {page} may not be wanted");
    }
    let start = Start::now(rt)?;
    let here = want_often(cache, need, count)?;
    let spent = start.spent(rt)?;
    println!(rt; "{count} wants of page {page}, {here} times here")?;
    eprintln!(rt; "{count} wants of page {page} in {spent}")?;
    Ok(())
}
