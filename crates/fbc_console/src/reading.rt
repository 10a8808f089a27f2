//! Reads a script from its source.

ghost use Rattle.std.specs.Prelude.{◌≡◌, ◌≤◌, ◌<◌, ◌⊎◌, length, IfOk, IfErr, OnOk};
ghost use Rattle.fbc_outside.specs.Frames.{IsBlamedFairly};
ghost use Rattle.fbc_console.specs.Bytes.{IsEmpty};
ghost use Rattle.fbc_console.specs.Script.{HasReadAll, IsTooLong, TakesNext, TakesAtMost};

use crate::statuses::Status;
use fbc_outside::Source;
use std::alloc::Global;

/// So many bytes a script may have at most.
const SCRIPT_LIMIT: usize = 4_194_304;

/// So many bytes are asked of a source at a time.
const PIECE: usize = 4096;

/// Reads what `script` has left to its end. A script of more than `SCRIPT_LIMIT` bytes is refused
/// with `SourceLong` as soon as one byte more was read, and is not kept.
///
/// Errors: `SourceFault` where a read was answered Failed, `OutOfMemory`, `SourceLong`.
pub fn read_script<S: Source>(alloc: Global, script: &mut S) -> Result<Vec<u8>, Status>
    ensures all { IfOk result (λ text. HasReadAll (S.left script.old) text.items) }
    ensures length { IfOk result (λ text. length text.items ≤ 4194304) }
    ensures read_out { OnOk result (IsEmpty (S.left script.new)) }
    ensures bounded { TakesAtMost 4194305 (S.left script.old) (S.left script.new) }
    ensures long { result ≡ Err Status.SourceLong → IsTooLong (S.left script.old) }
    ensures source { IsBlamedFairly S.faults (result ≡ Err Status.SourceFault) script.old script.new }
    ensures only { IfErr result (λ e. (e ≡ Status.SourceFault) ⊎ (e ≡ Status.OutOfMemory) ⊎ (e ≡ Status.SourceLong)) }
{
    let mut text = Vec::new(alloc);
    while text.len() <= SCRIPT_LIMIT {
        let room = SCRIPT_LIMIT + 1 - text.len();
        if read_next(script, room, &mut text)? == 0 {
            return Ok(text);
        }
    }
    Err(Status::SourceLong)
}

/// Reads one piece of at most `room` bytes and adds it to `text`, and says how many bytes it had:
/// 0 at the end of the source.
fn read_next<S: Source>(script: &mut S, room: usize, text: &mut Vec<u8>) -> Result<usize, Status>
    requires { 0 < room }
    ensures next { IfOk result (λ n. TakesNext (S.left script.old) (S.left script.new) text.old.items text.new.items n) }
    ensures end { IfOk result (λ n. n ≡ 0 → IsEmpty (S.left script.new)) }
    ensures bounded { TakesAtMost room (S.left script.old) (S.left script.new) }
    ensures within { IfOk result (λ n. n ≤ room) }
    ensures source { IsBlamedFairly S.faults (result ≡ Err Status.SourceFault) script.old script.new }
    ensures only { IfErr result (λ e. (e ≡ Status.SourceFault) ⊎ (e ≡ Status.OutOfMemory)) }
{
    let mut buffer = [0; PIECE];
    let asked = room.min(PIECE);
    let count = script
        .read(&mut buffer[..asked])
        .map_err(|_| Status::SourceFault)?;
    text.extend_from_slice(&buffer[..count])?;
    Ok(count)
}
