//! Many steps of one owner in a region, while another owner holds other pages.

ghost use Rattle.std.specs.Prelude.{◌≡◌, ◌≤◌, ◌<◌, ◌+◌, ◌-◌, ◌%◌, ◌∷◌, [], ℕ, suc, true, length, IfOk, OnOk};
ghost use Rattle.fbc_step_benchmarks.specs.Steps.{HasOnlyPage, HoldsBelow, IsReadyFor, has_opened};
ghost use Rattle.fbc_levels.specs.declared.levels.Level.TheVariants as levels;
ghost use Rattle.fbc_lock_table.specs.declared.answers.Asked.TheVariants as asked;
ghost use Rattle.fbc_lock_table.specs.Answers.{MayAsk};
ghost use Rattle.fbc_lock_table.specs.Effects.{after_ask};
ghost use Rattle.fbc_region.specs.Shared.{HasReserved, locks_in};
ghost use Rattle.fbc_levels.specs.Resources.{page_resource};
ghost use Rattle.fbc_world.specs.History.{recorded};
ghost use Rattle.fbc_world.specs.Owners.{is_alive};

use anyhow::{Result, bail};
use fbc_kinds::{Name, Shape};
use fbc_levels::{Level, Resource, Series};
use fbc_outside::MemoryDevice;
use fbc_region::{Chronicle, Region, steps_leave_owners_alive};
use fbc_world::{Answer, Ask};
use std::alloc::Global;

/// Bytes of a page.
const SIZE: u32 = 1024;

/// How many lock requests there may be.
const LOCKS: u32 = 1024;

/// A region with two owners, of which the second holds so many pages, from page 1 on, and the first none, with room for
/// so many steps. No page is read or written there.
pub fn busy_region(alloc: Global, held: u32, steps: u32) -> Result<Region<MemoryDevice>>
    requires { held ≤ 1000 }
    ensures ready { IfOk result (λ region. IsReadyFor 0 region.journal) }
    ensures second { IfOk result (λ region. is_alive (recorded region.journal) 2 ≡ true) }
    ensures reserved { IfOk result (λ region. HasReserved region.journal steps) }
    ensures size { IfOk result (λ region. region.size ≡ 1024) }
{
    let mut region = open_region(alloc)?;
    let mut image = vec![in alloc; 0u8; 1024]?;
    region.reserve(held + 2)?;
    enter_both(held, &mut region, &mut image);
    hold_pages(held, &mut region, &mut image)?;
    region.reserve(steps)?;
    Ok(region)
}

/// A region over no bytes, just opened.
fn open_region(alloc: Global) -> Result<Region<MemoryDevice>>
    ensures opened { IfOk result (λ region. region.journal.events ≡ has_opened 1024) }
    ensures size { IfOk result (λ region. region.size ≡ 1024) }
{
    let device = MemoryDevice::new(alloc, Vec::new(alloc), u64::from(SIZE), Vec::new(alloc))?;
    let shape = Shape {
        size: SIZE,
        count: 1,
        names: [Name::new(b""); 8],
        lengths: [0; 8],
        limit: 1,
    };
    let journal = Chronicle::new(alloc, &shape)?;
    let Ok(region) = Region::new(alloc, device, SIZE, LOCKS, journal) else {
        bail!("there is no memory for the region");
    };
    Ok(region)
}

/// Two owners come, and so many steps are left.
fn enter_both(left: u32, region: &mut Region<MemoryDevice>, image: &mut [u8])
    requires opened { region.old.journal.events ≡ has_opened 1024 }
    requires reserved { HasReserved region.old.journal (left + 2) }
    requires image { length image.old ≡ region.old.size }
    ensures holds { HoldsBelow 1 region.new.journal }
    ensures reserved { HasReserved region.new.journal left }
    ensures size { region.new.size ≡ region.old.size }
    ensures image { length image.new ≡ length image.old }
{
    let _first = region.perform(
        1,
        Ask::Enter {
            buffers: 1,
            name: 1,
        },
        &[],
        image,
    );
    let _second = region.perform(
        2,
        Ask::Enter {
            buffers: 1,
            name: 2,
        },
        &[],
        image,
    );
}

/// The second owner asks for so many pages, one after the other.
fn hold_pages(count: u32, region: &mut Region<MemoryDevice>, image: &mut [u8]) -> Result<()>
    requires few { count ≤ 1000 }
    requires holds { HoldsBelow 1 region.old.journal }
    requires reserved { HasReserved region.old.journal count }
    requires image { length image.old ≡ region.old.size }
    ensures ready { OnOk result (IsReadyFor 0 region.new.journal) }
    ensures second { OnOk result (is_alive (recorded region.new.journal) 2 ≡ true) }
    ensures size { region.new.size ≡ region.old.size }
{
    for held in 0..count {
        take_page(region, 2, held + 1, image)?;
    }
    Ok(())
}

/// The first owner takes so many steps: it asks for a page, looks and lowers it, and asks for it again.
pub fn take_steps(count: u32, region: &mut Region<MemoryDevice>, image: &mut [u8]) -> Result<()>
    requires ready { IsReadyFor 0 region.old.journal }
    requires reserved { HasReserved region.old.journal count }
    requires image { length image.old ≡ region.old.size }
{
    for turn in 0..count {
        take_step(turn, region, image)?;
    }
    Ok(())
}

/// The first owner's step of this turn.
fn take_step(turn: u32, region: &mut Region<MemoryDevice>, image: &mut [u8]) -> Result<()>
    requires ready { IsReadyFor (turn % 3) region.old.journal }
    requires reserved { HasReserved region.old.journal 1 }
    requires image { length image.old ≡ region.old.size }
    ensures ready { OnOk result (IsReadyFor ((turn + 1) % 3) region.new.journal) }
    ensures reserved { (n : ℕ) → HasReserved region.old.journal (suc n) → HasReserved region.new.journal n }
    ensures size { region.new.size ≡ region.old.size }
    ensures image { length image.new ≡ length image.old }
{
    match turn % 3 {
        0 => take_page(region, 1, 0, image),
        1 => look(region, image),
        _ => {
            lower_page(region, image);
            Ok(())
        }
    }
}

/// The owner asks for the page, and has it at once.
fn take_page(
    region: &mut Region<MemoryDevice>,
    owner: u32,
    page: u32,
    image: &mut [u8],
) -> Result<()>
    requires alive { is_alive (recorded region.old.journal) owner ≡ true }
    requires may { MayAsk (locks_in region.old.journal) owner (page_resource page) levels.Ex }
    requires reserved { HasReserved region.old.journal 1 }
    requires image { length image.old ≡ region.old.size }
    ensures granted { OnOk result (locks_in region.new.journal ≡ after_ask (locks_in region.old.journal) owner (page_resource page) levels.Ex 0 asked.Granted) }
    ensures alive { OnOk result ((other : ℕ) → is_alive (recorded region.old.journal) other ≡ true → is_alive (recorded region.new.journal) other ≡ true) }
    ensures reserved { (n : ℕ) → HasReserved region.old.journal (suc n) → HasReserved region.new.journal n }
    ensures size { region.new.size ≡ region.old.size }
    ensures image { length image.new ≡ length image.old }
{
    let ask = Ask::Lock {
        resource: page_of(page),
        level: Level::Ex,
        wait: false,
        word: 0,
    };
    steps_leave_owners_alive();
    match region.perform(owner, ask, &[], image) {
        Answer::Granted => Ok(()),
        _ => bail!("page {page} was not granted"),
    }
}

/// The first owner looks whether it waits no more.
fn look(region: &mut Region<MemoryDevice>, image: &mut [u8]) -> Result<()>
    requires has { HasOnlyPage region.old.journal }
    requires reserved { HasReserved region.old.journal 1 }
    requires image { length image.old ≡ region.old.size }
    ensures has { OnOk result (HasOnlyPage region.new.journal) }
    ensures reserved { (n : ℕ) → HasReserved region.old.journal (suc n) → HasReserved region.new.journal n }
    ensures size { region.new.size ≡ region.old.size }
    ensures image { length image.new ≡ length image.old }
{
    steps_leave_owners_alive();
    match region.perform(1, Ask::Look, &[], image) {
        Answer::Granted => Ok(()),
        _ => bail!("the first owner waits"),
    }
}

/// The first owner gives its page back.
fn lower_page(region: &mut Region<MemoryDevice>, image: &mut [u8])
    requires has { HasOnlyPage region.old.journal }
    requires reserved { HasReserved region.old.journal 1 }
    requires image { length image.old ≡ region.old.size }
    ensures ready { IsReadyFor 0 region.new.journal }
    ensures reserved { (n : ℕ) → HasReserved region.old.journal (suc n) → HasReserved region.new.journal n }
    ensures size { region.new.size ≡ region.old.size }
    ensures image { length image.new ≡ length image.old }
{
    let ask = Ask::Lower {
        resource: page_of(0),
        level: Level::Free,
    };
    steps_leave_owners_alive();
    let _noted = region.perform(1, ask, &[], image);
}

/// The page of this number as what is locked.
fn page_of(key: u32) -> Resource
    ensures { result ≡ page_resource key }
{
    Resource {
        series: Series::Page,
        key,
    }
}
