//! Which page is to be written before which, replayed event by event.

ghost use Rattle.std.specs.Prelude.{◌≡◌, ◌↔◌, IsTrue, false, reverse};
ghost use Rattle.std.specs.List.{list_any};
ghost use Rattle.fbc_world.specs.declared.events.Event.{Event};
ghost use Rattle.fbc_world.specs.History.{none_landed};
ghost use Rattle.fbc_world.specs.WriteOrder.{IsPair, pair_step, pairs_of};

use fbc_world::{Act, Event, LocalEvent};

/// Whether some owner has the pair of these pages after these events.
pub(crate) fn is_pair(high: u32, low: u32, events: &[Event]) -> bool
    ensures { IsTrue result ↔ IsPair (none_landed (reverse events.now)) high low }
{
    is_pair_of_actor(high, low, events)
}

/// Whether the actor of one of the events has the pair after all of them.
fn is_pair_of_actor(high: u32, low: u32, events: &[Event]) -> bool
    ensures { result ≡ list_any (λ (event : Event). pairs_of (none_landed (reverse events.now)) event.actor high low) events.now }
{
    events
        .iter()
        .any(|event| has_pair(event.actor, high, low, events))
}

/// Whether the owner has the pair after these events.
fn has_pair(owner: u32, high: u32, low: u32, events: &[Event]) -> bool
    ensures { result ≡ pairs_of (none_landed (reverse events.now)) owner high low }
{
    let mut stands = false;
    for event in events {
        stands = stands_after(owner, high, low, stands, event);
    }
    stands
}

/// Whether the owner's pair stands after the event.
fn stands_after(owner: u32, high: u32, low: u32, stands: bool, event: &Event) -> bool
    ensures { result ≡ pair_step owner high low stands event.now.actor event.now.act false }
{
    match &event.act {
        Act::Local(
            LocalEvent::Before {
                high: above,
                low: below,
            },
        ) => event.actor == owner && *above == high && *below == low || stands,
        Act::Write {
            page: number,
            cause: _,
            failed,
        } => {
            let ends = if *failed {
                event.actor == owner
            } else {
                *number == high
            };
            stands && !ends
        }
        Act::Die => stands && event.actor != owner,
        _ => stands,
    }
}
