//! The top call: words, file, script, play, and the status by which it ends.

ghost use Rattle.std.specs.Prelude.{◌≡◌, ◌≤◌, ◌^◌, ◌⊎◌, List, ℕ, OnOk};
ghost use Rattle.fbc_kinds.specs.declared.rules.Rule.{Rule};
ghost use Rattle.fbc_outside.specs.Faults.{Rose, bump};
ghost use Rattle.fbc_outside.specs.Frames.{IsBlamedFairly, IsFaithful};
ghost use Rattle.fbc_outside.specs.Streams.{SinkTakesSome};
ghost use Rattle.fbc_console.specs.Statuses.{status_line};
ghost use Rattle.fbc_console.specs.Bytes.{IsEmpty};
ghost use Rattle.fbc_console.specs.Script.{TakesAtMost};
ghost use Rattle.fbc_console.specs.SoundFiles.{IsSoundDevice, IsUnsoundDevice, SpellsCheck};
ghost use Rattle.fbc_command_line.specs.Commands.{SpellsPlay};
ghost use Rattle.fbc_console.specs.Asking.{IsPlayable};
ghost use Rattle.fbc_console.specs.Writing.{MayWrite};
ghost use Rattle.fbc_console.specs.Opening.{IsFreshDevice};
ghost use Rattle.fbc_console.specs.Closing.{IsClosed, IsLineWritten, Took};
ghost use Rattle.fbc_console.specs.Completing.{IsCompleted, IsChecked, IsPlainCheck, IsPlainCreate, IsPlainPlay, NothingFailed};
ghost use Rattle.fbc_console.specs.Ending.{HasEnded, IsCarriedOut, IsPlayDone, IsFreshPlayed};

use crate::asking::read_asked;
use crate::checking::check;
use crate::laws::{
    a_committed_transaction_is_a_play, a_transaction_stands_as_a_whole,
    an_untouched_file_is_an_empty_play, answers_are_the_machines, the_fresh_file_means_no_rows,
};
use crate::making::create;
use crate::opening::{is_fresh, open};
use crate::playing::play;
use crate::statuses::{MEMORY_LINE, Status};
use fbc_command_line::{Command, command_of, words_spell_one_command};
use fbc_outside::{Device, Sink, Source, write_all};
use fbc_script::{SingleTransaction, bytes_spell_one_script};
use std::alloc::Global;

/// How a call of the console ended, and the device that it was given.
#[derive(Debug, Drop)]
pub struct Ended<D> {
    pub status: Status,
    pub device: D,
}

/// Carries out the words, without the file's name, over the file on the device, and hands the device
/// back. `play` reads its script from `script`, `create` makes a file where nothing stands, and
/// `validate` checks the whole file; all lines are written to `out`, and last that of the status where
/// it has one (docs/STATUSES.md). Only `play` and `create` write to the device, and a file that is
/// refused is read once and not written.
pub fn console<D: Device, S: Source, K: Sink>(
    alloc: Global,
    words: &[String],
    device: D,
    script: &mut S,
    out: &mut K,
) -> Ended<D>
    requires least { 262144 ≤ D.reach device }
    requires most { D.reach device ≤ 2 ^ 40 }
    ensures ended { HasEnded (D.reach device) words.now (S.left script.old)
        (K.may_have out.old) (K.may_have out.new) (D.bytes device) (D.bytes result.device) result.status }
    ensures device { IsFaithful D.reach D.faults (result.status ≡ Status.DeviceFault) device result.device }
    ensures source { IsBlamedFairly S.faults (result.status ≡ Status.SourceFault) script.old script.new }
    ensures sink { IsBlamedFairly K.faults (result.status ≡ Status.SinkFault) out.old out.new }
    ensures bounded { TakesAtMost 4194305 (S.left script.old) (S.left script.new) }
    ensures read_out { result.status ≡ Status.Ok → SpellsPlay words.now → IsEmpty (S.left script.new) }
    ensures unread { (SpellsPlay words.now → ⊥) → S.left script.new ≡ S.left script.old }
    ensures unwritten { (MayWrite words.now → ⊥) → D.writes result.device ≡ D.writes device }
    ensures refused_read { (rule : Rule)
        → result.status ≡ Status.NotOurs rule
        → D.reads result.device ≡ bump (D.reads device) }
    ensures refused_unwritten { (rule : Rule)
        → result.status ≡ Status.NotOurs rule
        → D.writes result.device ≡ D.writes device }
    ensures plays { NothingFailed (D.faults device) (D.faults result.device)
        (S.faults script.old) (S.faults script.new) (K.faults out.old) (K.faults out.new)
        → IsPlainPlay words.now (S.left script.old) (D.bytes device) → IsCompleted result.status }
    ensures makes { NothingFailed (D.faults device) (D.faults result.device)
        (S.faults script.old) (S.faults script.new) (K.faults out.old) (K.faults out.new)
        → IsPlainCreate words.now (D.bytes device) → IsCompleted result.status }
    ensures sound { result.status ≡ Status.Ok → SpellsCheck words.now → IsSoundDevice (D.reach device) (D.bytes device) }
    ensures unsound { result.status ≡ Status.Damaged → SpellsCheck words.now → IsUnsoundDevice (D.reach device) (D.bytes device) }
    ensures checks { NothingFailed (D.faults device) (D.faults result.device)
        (S.faults script.old) (S.faults script.new) (K.faults out.old) (K.faults out.new)
        → IsPlainCheck words.now (D.bytes device) → IsChecked result.status }
{
    bytes_spell_one_script();
    the_fresh_file_means_no_rows();
    words_spell_one_command();
    let mut device = device;
    let status = run(alloc, words, &mut device, script, out);
    Ended { status, device }
}

/// Carries out the words and writes the line of the status.
fn run<D: Device, S: Source, K: Sink>(
    alloc: Global,
    words: &[String],
    device: &mut D,
    script: &mut S,
    out: &mut K,
) -> Status
    requires least { 262144 ≤ D.reach device.old }
    requires most { D.reach device.old ≤ 2 ^ 40 }
    ensures ended { HasEnded (D.reach device.old) words.now (S.left script.old)
        (K.may_have out.old) (K.may_have out.new) (D.bytes device.old) (D.bytes device.new) result }
    ensures device { IsFaithful D.reach D.faults (result ≡ Status.DeviceFault) device.old device.new }
    ensures source { IsBlamedFairly S.faults (result ≡ Status.SourceFault) script.old script.new }
    ensures sink { IsBlamedFairly K.faults (result ≡ Status.SinkFault) out.old out.new }
    ensures bounded { TakesAtMost 4194305 (S.left script.old) (S.left script.new) }
    ensures read_out { result ≡ Status.Ok → SpellsPlay words.now → IsEmpty (S.left script.new) }
    ensures unread { (SpellsPlay words.now → ⊥) → S.left script.new ≡ S.left script.old }
    ensures unwritten { (MayWrite words.now → ⊥) → D.writes device.new ≡ D.writes device.old }
    ensures refused_read { (rule : Rule)
        → result ≡ Status.NotOurs rule
        → D.reads device.new ≡ bump (D.reads device.old) }
    ensures refused_unwritten { (rule : Rule)
        → result ≡ Status.NotOurs rule
        → D.writes device.new ≡ D.writes device.old }
{
    let outcome = carry_out(alloc, words, device, script, out);
    end(alloc, outcome, out)
}

/// Carries out the words.
fn carry_out<D: Device, S: Source, K: Sink>(
    alloc: Global,
    words: &[String],
    device: &mut D,
    script: &mut S,
    out: &mut K,
) -> Result<(), Status>
    requires least { 262144 ≤ D.reach device.old }
    requires most { D.reach device.old ≤ 2 ^ 40 }
    ensures done { (told : List ℕ)
        × IsCarriedOut (D.reach device.old) words.now (S.left script.old) (D.bytes device.old) (D.bytes device.new) result told
        × Took result (K.may_have out.old) (K.may_have out.new) told }
    ensures device { IsFaithful D.reach D.faults (result ≡ Err Status.DeviceFault) device.old device.new }
    ensures source { IsBlamedFairly S.faults (result ≡ Err Status.SourceFault) script.old script.new }
    ensures sink { IsBlamedFairly K.faults (result ≡ Err Status.SinkFault) out.old out.new }
    ensures bounded { TakesAtMost 4194305 (S.left script.old) (S.left script.new) }
    ensures read_out { OnOk result (SpellsPlay words.now → IsEmpty (S.left script.new)) }
    ensures unread { (SpellsPlay words.now → ⊥) → S.left script.new ≡ S.left script.old }
    ensures unwritten { (MayWrite words.now → ⊥) → D.writes device.new ≡ D.writes device.old }
    ensures refused_read { (rule : Rule)
        → result ≡ Err (Status.NotOurs rule)
        → D.reads device.new ≡ bump (D.reads device.old) }
    ensures refused_unwritten { (rule : Rule)
        → result ≡ Err (Status.NotOurs rule)
        → D.writes device.new ≡ D.writes device.old }
{
    match command_of(alloc, words) {
        Ok(Some(Command::Play)) => play_file(alloc, device, script, out),
        Ok(Some(Command::Create { size, relations })) => {
            create(alloc, size, relations.items(), device, out)
        }
        Ok(Some(Command::Validate { json })) => check(alloc, json, device, out),
        Ok(None) => Err(Status::Usage),
        Err(_) => Err(Status::OutOfMemory),
    }
}

/// Opens the file, reads the script, and plays what it asks for where the file is the fresh file.
fn play_file<D: Device, S: Source, K: Sink>(
    alloc: Global,
    device: &mut D,
    script: &mut S,
    out: &mut K,
) -> Result<(), Status>
    requires reach { 262144 ≤ D.reach device.old }
    ensures done { (told : List ℕ)
        × IsPlayDone (S.left script.old) (D.bytes device.old) (D.bytes device.new) result told
        × Took result (K.may_have out.old) (K.may_have out.new) told }
    ensures device { IsFaithful D.reach D.faults (result ≡ Err Status.DeviceFault) device.old device.new }
    ensures source { IsBlamedFairly S.faults (result ≡ Err Status.SourceFault) script.old script.new }
    ensures sink { IsBlamedFairly K.faults (result ≡ Err Status.SinkFault) out.old out.new }
    ensures bounded { TakesAtMost 4194305 (S.left script.old) (S.left script.new) }
    ensures read_out { OnOk result (IsEmpty (S.left script.new)) }
    ensures refused_read { (rule : Rule)
        → result ≡ Err (Status.NotOurs rule)
        → D.reads device.new ≡ bump (D.reads device.old) }
    ensures refused_unwritten { (rule : Rule)
        → result ≡ Err (Status.NotOurs rule)
        → D.writes device.new ≡ D.writes device.old }
{
    if let Err(status) = open(device) {
        return Err(status);
    }
    let asked = match read_asked(alloc, script) {
        Ok(asked) => asked,
        Err(status) => return Err(status),
    };
    match is_fresh(alloc, device) {
        Ok(true) => play_asked(alloc, &asked, device, out),
        Ok(false) => Err(Status::Later),
        Err(status) => Err(status),
    }
}

/// Plays what a script asks for.
fn play_asked<D: Device, K: Sink>(
    alloc: Global,
    asked: &SingleTransaction,
    device: &mut D,
    out: &mut K,
) -> Result<(), Status>
    requires reach { 262144 ≤ D.reach device.old }
    requires playable { IsPlayable asked.now }
    requires fresh { IsFreshDevice (D.bytes device.old) }
    ensures played { (told : List ℕ)
        × IsFreshPlayed result asked.now told (D.bytes device.old) (D.bytes device.new)
        × Took result (K.may_have out.old) (K.may_have out.new) told }
    ensures no_refusal { (rule : Rule) → result ≡ Err (Status.NotOurs rule) → ⊥ }
    ensures device { IsFaithful D.reach D.faults (result ≡ Err Status.DeviceFault) device.old device.new }
    ensures sink { IsBlamedFairly K.faults (result ≡ Err Status.SinkFault) out.old out.new }
{
    answers_are_the_machines();
    an_untouched_file_is_an_empty_play();
    a_committed_transaction_is_a_play();
    a_transaction_stands_as_a_whole();
    match asked {
        SingleTransaction::Steps(steps) => play(alloc, steps.items(), device, out),
        SingleTransaction::Absent => Ok(()),
    }
}

/// Writes the line of the status, where it has one, and says by which status the call ends.
pub fn end<K: Sink>(alloc: Global, outcome: Result<(), Status>, out: &mut K) -> Status
    ensures closed { IsClosed outcome (K.may_have out.old) (K.may_have out.new) result }
    ensures fault { result ≡ Status.SinkFault → (outcome ≡ Err Status.SinkFault) ⊎ Rose (K.faults out.old) (K.faults out.new) }
    ensures same { (result ≡ Status.DeviceFault) ⊎ (result ≡ Status.SourceFault) → outcome ≡ Err result }
    ensures refused { (rule : Rule) → result ≡ Status.NotOurs rule → outcome ≡ Err result }
    ensures well { result ≡ Status.Ok → (outcome ≡ Ok tt) ⊎ (outcome ≡ Err Status.Ok) }
    ensures later { K.faults out.old ≤ K.faults out.new }
{
    match outcome {
        Ok(()) => Status::Ok,
        Err(Status::Damaged) => Status::Damaged,
        Err(Status::SinkFault) => Status::SinkFault,
        Err(Status::OutOfMemory) => end_without_memory(out),
        Err(status) => match status.line(alloc) {
            Ok(line) => end_with(status, line.as_bytes(), out),
            Err(_) => end_without_memory(out),
        },
    }
}

/// Writes the line of a status.
fn end_with<K: Sink>(status: Status, line: &[u8], out: &mut K) -> Status
    requires { line.now ≡ status_line status }
    ensures written { IsLineWritten (K.may_have out.old) (K.may_have out.new) status result }
    ensures fault { result ≡ Status.SinkFault → (status ≡ Status.SinkFault) ⊎ Rose (K.faults out.old) (K.faults out.new) }
    ensures only { (result ≡ status) ⊎ (result ≡ Status.SinkFault) }
    ensures later { K.faults out.old ≤ K.faults out.new }
{
    match write_all(out, line) {
        Ok(()) => status,
        Err(_) => Status::SinkFault,
    }
}

/// Writes the line of a call that had no memory, as far as the sink takes it.
fn end_without_memory<K: Sink>(out: &mut K) -> Status
    ensures status { result ≡ Status.OutOfMemory }
    ensures part { SinkTakesSome (K.may_have out.old) (K.may_have out.new) (status_line Status.OutOfMemory) }
    ensures later { K.faults out.old ≤ K.faults out.new }
{
    let _ = write_all(out, MEMORY_LINE);
    Status::OutOfMemory
}
