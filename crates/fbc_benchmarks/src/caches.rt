//! Wants of pages in a cache of which all buffers are in use.

ghost use Rattle.std.specs.Prelude.{IfOk};
ghost use Rattle.fbc_cache.specs.Wants.{MayWant};
ghost use Rattle.fbc_kinds.specs.HeaderSpelling.{IsFileShape};

use crate::pages::fill_header;
use anyhow::{Result, bail};
use fbc_cache::{Cache, Need, Want};
use fbc_kinds::Shape;
use fbc_levels::{Level, Resource, Series};
use fbc_pages::recognise;
use fbc_world::{Answer, Ask};
use std::alloc::Global;

/// Bytes of a page.
const SIZE: u32 = 4096;

/// A cache that holds as many pages as it has buffers, from page 1 on. All but the last of them are pinned.
pub fn full_cache(alloc: Global, buffers: u32) -> Result<Cache> {
    let mut cache = Cache::new(alloc, buffers, shape()?)?;
    for page in 0..buffers {
        hold(&mut cache, page + 1)?;
        if page + 1 < buffers {
            cache.pin(page + 1);
        }
    }
    Ok(cache)
}

/// The shape of a file that begins with the sample header.
fn shape() -> Result<Shape>
    ensures { IfOk result IsFileShape }
{
    let mut header = [0; 1024];
    fill_header(&mut header);
    match recognise(&header, 20480, 20480) {
        Ok(shape) => Ok(shape),
        Err(rule) => bail!("the sample header breaks the rule {rule}"),
    }
}

/// The page is granted in PR and read. It is blank.
fn hold(cache: &mut Cache, page: u32) -> Result<()> {
    let lock = Ask::Lock {
        resource: Resource {
            series: Series::Page,
            key: page,
        },
        level: Level::Pr,
        wait: false,
        word: 0,
    };
    take(cache, &lock, &Answer::Granted)?;
    take(cache, &Ask::Read { page }, &Answer::PageIs { length: SIZE })
}

/// The cache takes the answer. What was read are zeros.
fn take(cache: &mut Cache, ask: &Ask, answer: &Answer) -> Result<()> {
    if cache.page_size() != SIZE {
        bail!("the pages have {} bytes", cache.page_size());
    }
    cache.take(ask, answer, &[0; 4096])?;
    Ok(())
}

/// A page that is to be read.
pub fn need_of(page: u32) -> Need {
    Need {
        page,
        level: Level::Pr,
        wait: false,
        fresh: false,
    }
}

/// Wants a page so many times: how often it could be used at once.
pub fn want_often(cache: &mut Cache, need: Need, count: u32) -> Result<u32>
    requires { MayWant cache.old need }
{
    let mut here = 0_u32;
    for _ in 0..count {
        if let Want::Here = cache.want(need)? {
            here = here.saturating_add(1);
        }
    }
    Ok(here)
}
