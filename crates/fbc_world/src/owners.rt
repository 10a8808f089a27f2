//! Who is alive, and which levels are granted, replayed event by event.

ghost use Rattle.std.specs.Prelude.{◌≡◌, reverse};
ghost use Rattle.fbc_world.specs.History.{none_landed};
ghost use Rattle.fbc_world.specs.Owners.{alive_step, granted, granted_step, is_alive};

use crate::events::{Act, Event};
use fbc_levels::{Level, Resource};

/// Whether the owner is alive after these events.
pub(crate) fn is_alive(owner: u32, events: &[Event]) -> bool
    ensures { result ≡ is_alive (none_landed (reverse events.now)) owner }
{
    let mut alive = false;
    for event in events {
        if event.actor == owner {
            alive = alive_after(alive, &event.act);
        }
    }
    alive
}

/// Whether an owner is alive after an act of its own.
fn alive_after(alive: bool, act: &Act) -> bool
    ensures { result ≡ alive_step alive act.now }
{
    match act {
        Act::Enter {
            buffers: _,
            name: _,
        } => true,
        Act::Leave | Act::Die => false,
        Act::Write {
            page: _,
            cause: _,
            failed,
        } => alive && !*failed,
        _ => alive,
    }
}

/// The level that the owner is granted on the resource after these events.
pub(crate) fn granted(owner: u32, resource: Resource, events: &[Event]) -> Level
    ensures { result ≡ granted (none_landed (reverse events.now)) owner resource }
{
    let mut level = Level::Free;
    for event in events {
        level = granted_after(owner, resource, level, event);
    }
    level
}

/// The level that the owner is granted on the resource after the event.
fn granted_after(owner: u32, resource: Resource, level: Level, event: &Event) -> Level
    ensures { result ≡ granted_step owner resource level event.now.actor event.now.act }
{
    match &event.act {
        Act::Opened { locks: _ } => Level::Free,
        Act::Grant {
            resource: other,
            level: new,
        }
        | Act::Lower {
            resource: other,
            level: new,
        } => {
            if event.actor == owner && other.is_same(resource) {
                *new
            } else {
                level
            }
        }
        Act::Reap { owner: dead, by: _ } => { if *dead == owner { Level::Free } else { level } }
        _ => level,
    }
}
