//! Plays one transaction over the fresh file.

ghost use Rattle.std.specs.Prelude.{◌≡◌, ◌≤◌, ◌<◌, [], true, length, reverse, count_by, OnOk};
ghost use Rattle.std.specs.List.{AllByRecursion};
ghost use Rattle.fbc_outside.specs.Frames.{IsBlamedFairly, IsFaithful};
ghost use Rattle.fbc_script.specs.SingleTransaction.{IsShort, is_insert};
ghost use Rattle.fbc_console.specs.Transaction.{answer_line, answer_to, inserted, values_after};
ghost use Rattle.fbc_console.specs.Saying.{IsSaid, IsOpeningSaid, AreStepsSaid, IsFrontSaid, IsTransactionSaid, IsCommitSaid};
ghost use Rattle.fbc_console.specs.Committing.{IsCommitted, Stands};

use crate::statuses::Status;
use crate::store::Store;
use crate::transaction::{Answer, line_of};
use crate::writes::write_images;
use fbc_kinds::Value;
use fbc_outside::{Device, Sink, write_all};
use fbc_script::Step;
use std::alloc::Global;

/// Plays `a1 attach`, `a1 begin wait`, the steps and `a1 commit` over the fresh file, and writes the
/// line that answers each of them.
///
/// Errors: `DeviceFault` where a write of commit was answered Failed, `SinkFault`, `OutOfMemory`.
pub fn play<D: Device, K: Sink>(
    alloc: Global,
    steps: &[Step],
    device: &mut D,
    out: &mut K,
) -> Result<(), Status>
    requires reach { 262144 ≤ D.reach device.old }
    requires count { length steps.now < 4294967293 }
    requires short { AllByRecursion IsShort steps.now }
    requires few { count_by is_insert steps.now ≤ 45 }
    ensures said { IsTransactionSaid result (K.may_have out.old) (K.may_have out.new) steps.now (D.bytes device.old) (D.bytes device.new) }
    ensures stands { Stands result (D.bytes device.old) (D.bytes device.new) (inserted (reverse steps.now)) }
    ensures device { IsFaithful D.reach D.faults (result ≡ Err Status.DeviceFault) device.old device.new }
    ensures sink { IsBlamedFairly K.faults (result ≡ Err Status.SinkFault) out.old out.new }
{
    let mut store = match Store::new(alloc) {
        Ok(store) => store,
        Err(_) => return Err(Status::OutOfMemory),
    };
    match tell_front(alloc, steps, &mut store, out) {
        Ok(()) => commit(alloc, steps.len() as u32 + 3, store, device, out),
        Err(status) => Err(status),
    }
}

/// Plays the statements before commit.
fn tell_front<K: Sink>(
    alloc: Global,
    steps: &[Step],
    store: &mut Store,
    out: &mut K,
) -> Result<(), Status>
    requires fresh { store.old ≡ [] }
    requires count { length steps.now < 4294967293 }
    requires short { AllByRecursion IsShort steps.now }
    requires few { count_by is_insert steps.now ≤ 45 }
    ensures said { IsFrontSaid result (K.may_have out.old) (K.may_have out.new) steps.now }
    ensures store { OnOk result (store.new ≡ inserted (reverse steps.now)) }
    ensures sink { IsBlamedFairly K.faults (result ≡ Err Status.SinkFault) out.old out.new }
{
    match tell_opening(alloc, out) {
        Ok(()) => play_steps(alloc, steps, store, out),
        Err(status) => Err(status),
    }
}

/// Writes the lines that answer attach and begin.
fn tell_opening<K: Sink>(alloc: Global, out: &mut K) -> Result<(), Status>
    ensures said { IsOpeningSaid result (K.may_have out.old) (K.may_have out.new) }
    ensures sink { IsBlamedFairly K.faults (result ≡ Err Status.SinkFault) out.old out.new }
{
    match say(alloc, out, 1, &Answer::Ok) {
        Ok(()) => say(alloc, out, 2, &Answer::Number(1)),
        Err(status) => Err(status),
    }
}

/// Plays the steps.
fn play_steps<K: Sink>(
    alloc: Global,
    steps: &[Step],
    store: &mut Store,
    out: &mut K,
) -> Result<(), Status>
    requires fresh { store.old ≡ [] }
    requires count { length steps.now < 4294967293 }
    requires short { AllByRecursion IsShort steps.now }
    requires few { count_by is_insert steps.now ≤ 45 }
    ensures said { AreStepsSaid result (K.may_have out.old) (K.may_have out.new) steps.now }
    ensures store { OnOk result (store.new ≡ inserted (reverse steps.now)) }
    ensures sink { IsBlamedFairly K.faults (result ≡ Err Status.SinkFault) out.old out.new }
{
    for (at, step) in steps.iter().enumerate() {
        let answer = answer_step(store, step);
        match say(alloc, out, at as u32 + 3, &answer) {
            Ok(()) => {}
            Err(status) => return Err(status),
        }
    }
    Ok(())
}

/// What a step is answered, and the store after it.
fn answer_step(store: &mut Store, step: &Step) -> Answer
    requires room { is_insert step.now ≡ true → length store.old < 45 }
    requires short { IsShort step.now }
    ensures answer { result ≡ answer_to store.old step.now }
    ensures store { store.new ≡ values_after store.old step.now }
{
    match step {
        Step::Insert { text } => {
            let value = Value::new(text.as_bytes());
            Answer::Row(store.insert(value))
        }
        Step::Read { row } => match store.read(*row) {
            Some(value) => Answer::Value(value),
            None => Answer::None,
        },
    }
}

/// Writes the pages of the commit, and then the line that answers it.
fn commit<D: Device, K: Sink>(
    alloc: Global,
    number: u32,
    store: Store,
    device: &mut D,
    out: &mut K,
) -> Result<(), Status>
    requires reach { 262144 ≤ D.reach device.old }
    ensures said { IsCommitSaid result (K.may_have out.old) (K.may_have out.new) (answer_line number Answer.Ok) }
    ensures stands { Stands result (D.bytes device.old) (D.bytes device.new) store }
    ensures cut { result ≡ Err Status.SinkFault → IsCommitted (D.bytes device.old) (D.bytes device.new) store }
    ensures device { IsFaithful D.reach D.faults (result ≡ Err Status.DeviceFault) device.old device.new }
    ensures sink { IsBlamedFairly K.faults (result ≡ Err Status.SinkFault) out.old out.new }
{
    let line = line_of(alloc, number, &Answer::Ok)?;
    let images = store.commit(alloc)?;
    write_images(device, images.as_slice()).map_err(|_| Status::DeviceFault)?;
    match write_all(out, line.as_slice()) {
        Ok(()) => Ok(()),
        Err(_) => Err(Status::SinkFault),
    }
}

/// Writes the line that answers the statement on the script's line `number`.
fn say<K: Sink>(alloc: Global, out: &mut K, number: u32, answer: &Answer) -> Result<(), Status>
    ensures said { IsSaid result (K.may_have out.old) (K.may_have out.new) (answer_line number answer.now) }
    ensures sink { IsBlamedFairly K.faults (result ≡ Err Status.SinkFault) out.old out.new }
{
    let line = line_of(alloc, number, answer)?;
    write_all(out, line.as_slice()).map_err(|_| Status::SinkFault)
}
