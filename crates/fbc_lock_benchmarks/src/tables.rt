//! A lock table in which several owners hold pages, and what is asked of it again and again.

use anyhow::{Result, bail};
use fbc_blocking::next_callback;
use fbc_levels::{Level, Resource};
use fbc_lock_table::{Asked, LockTable};
use std::alloc::Global;

/// A table in which each of the owners, from 1 on, holds so many pages in EX, from page 1 on. It has room for two more
/// requests.
pub fn full_table(alloc: Global, owners: u32, pages: u32) -> Result<LockTable> {
    let requests = owners.saturating_mul(pages);
    let mut table = LockTable::new(alloc, requests.saturating_add(2))?;
    for owner in 0..owners {
        hold_pages(
            &mut table,
            owner.saturating_add(1),
            owner.saturating_mul(pages),
            pages,
        )?;
    }
    Ok(table)
}

/// The owner takes so many pages behind this one.
fn hold_pages(table: &mut LockTable, owner: u32, page: u32, pages: u32) -> Result<()> {
    for offset in 1..=pages {
        take(table, owner, page.saturating_add(offset))?;
    }
    Ok(())
}

/// The owner takes the page in EX, and has it at once.
fn take(table: &mut LockTable, owner: u32, page: u32) -> Result<()> {
    match ask(table, owner, page, false)? {
        Asked::Granted => Ok(()),
        _ => bail!("page {page} was not granted"),
    }
}

/// The owner waits for the first page, which the first owner holds.
pub fn wait_for_first(table: &mut LockTable, owner: u32) -> Result<()> {
    match ask(table, owner, 1, true)? {
        Asked::Queued => Ok(()),
        _ => bail!("nobody holds the first page"),
    }
}

/// The owner asks for the page in EX.
fn ask(table: &mut LockTable, owner: u32, page: u32, wait: bool) -> Result<Asked> {
    let resource = Resource::page(page);
    if !table.may_ask(owner, resource, Level::Ex) {
        bail!("the owner {owner} may not ask for page {page}");
    }
    Ok(table.ask(owner, resource, Level::Ex, wait, 0))
}

/// In each of these tables in turn the first owner asks whom it keeps out, so many times in each: how often it keeps
/// somebody out. Over one table alone the compiler would ask once for all.
pub fn count_callbacks(tables: &[LockTable], rounds: u32) -> u32 {
    let mut found = 0_u32;
    for _ in 0..rounds {
        for table in tables {
            found = found.saturating_add(u32::from(next_callback(table, 1, None).is_some()));
        }
    }
    found
}

/// An owner without pages takes page 0 so many times, and gives it back: how often it had it.
pub fn take_and_lower(table: &mut LockTable, count: u32) -> Result<u32> {
    let mut taken = 0_u32;
    for _ in 0..count {
        take(table, u32::MAX, 0)?;
        table.lower(u32::MAX, Resource::page(0), Level::Free);
        taken = taken.saturating_add(1);
    }
    Ok(taken)
}
