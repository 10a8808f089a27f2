//! Steps that change no request: polls, looks and notes, and the waiting before looks.

ghost use Rattle.std.specs.Prelude.{◌≡◌, suc, ℕ, true, length, OnOk};
ghost use Rattle.fbc_levels.specs.declared.levels.Level.TheVariants as levels;
ghost use Rattle.fbc_levels.specs.Resources.{page_resource};
ghost use Rattle.fbc_region.specs.Shared.{HasReserved};
ghost use Rattle.fbc_step_benchmarks.specs.Steps.{IsIdle, IsReadyFor};
ghost use Rattle.fbc_world.specs.History.{recorded};
ghost use Rattle.fbc_world.specs.Owners.{is_alive};

use anyhow::{Result, bail};
use fbc_kinds::Reply;
use fbc_levels::{Level, Resource};
use fbc_outside::MemoryDevice;
use fbc_region::{Region, steps_leave_owners_alive};
use fbc_world::{Answer, Ask};

/// A step that changes no request.
#[derive(Clone, Copy)]
pub enum Idle {
    Poll,
    Look,
    Note,
}

/// What is asked by such a step.
fn ask_of(idle: Idle) -> Ask
    ensures { IsIdle result }
{
    match idle {
        Idle::Poll => Ask::Poll { above: None },
        Idle::Look => Ask::Look,
        Idle::Note => Ask::Note { reply: Reply::Ok },
    }
}

/// The owner takes so many such steps: how many were answered as is due where nobody keeps another out, and the owner
/// that looks waits.
pub fn take_idle_steps(
    idle: Idle,
    owner: u32,
    count: u32,
    region: &mut Region<MemoryDevice>,
    image: &mut [u8],
) -> Result<u32>
    requires alive { is_alive (recorded region.old.journal) owner ≡ true }
    requires reserved { HasReserved region.old.journal count }
    requires image { length image.old ≡ region.old.size }
{
    let mut due = 0_u32;
    for _ in 0..count {
        if take_idle_step(idle, owner, region, image)? {
            due = due.saturating_add(1);
        }
    }
    Ok(due)
}

/// The owner takes one such step: whether it was answered as is due.
fn take_idle_step(
    idle: Idle,
    owner: u32,
    region: &mut Region<MemoryDevice>,
    image: &mut [u8],
) -> Result<bool>
    requires alive { is_alive (recorded region.old.journal) owner ≡ true }
    requires reserved { HasReserved region.old.journal 1 }
    requires image { length image.old ≡ region.old.size }
    ensures alive { OnOk result (is_alive (recorded region.new.journal) owner ≡ true) }
    ensures reserved { (n : ℕ) → HasReserved region.old.journal (suc n) → HasReserved region.new.journal n }
    ensures size { region.new.size ≡ region.old.size }
    ensures image { length image.new ≡ length image.old }
{
    let ask = ask_of(idle);
    steps_leave_owners_alive();
    match region.perform(owner, ask, &[], image) {
        Answer::WriteFault => bail!("a write failed where none was asked for"),
        Answer::NoCallback | Answer::Noted | Answer::NotYet { holder: _ } => Ok(true),
        _ => Ok(false),
    }
}

/// The first owner waits for page 1, which the second holds.
pub fn wait_for_page(region: &mut Region<MemoryDevice>, image: &mut [u8]) -> Result<()>
    requires ready { IsReadyFor 0 region.old.journal }
    requires reserved { HasReserved region.old.journal 1 }
    requires image { length image.old ≡ region.old.size }
    ensures alive { OnOk result (is_alive (recorded region.new.journal) 1 ≡ true) }
    ensures reserved { (n : ℕ) → HasReserved region.old.journal (suc n) → HasReserved region.new.journal n }
    ensures size { region.new.size ≡ region.old.size }
    ensures image { length image.new ≡ length image.old }
{
    let ask = Ask::Lock {
        resource: Resource::page(1),
        level: Level::Ex,
        wait: true,
        word: 0,
    };
    steps_leave_owners_alive();
    match region.perform(1, ask, &[], image) {
        Answer::Queued => Ok(()),
        _ => bail!("nobody holds page 1"),
    }
}

/// How often so many asks whether somebody waits for a page of the owner are answered with no.
pub fn count_uncalled(owner: u32, count: u32, region: &Region<MemoryDevice>) -> u32 {
    let mut uncalled = 0_u32;
    for _ in 0..count {
        if !region.called(owner) {
            uncalled = uncalled.saturating_add(1);
        }
    }
    uncalled
}
