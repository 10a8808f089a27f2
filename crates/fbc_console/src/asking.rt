//! What the script of a source asks for.

ghost use Rattle.std.specs.Prelude.{◌≡◌, ◌<◌, Some, length, IfOk, IfErr, OnOk};
ghost use Rattle.fbc_outside.specs.Frames.{IsBlamedFairly};
ghost use Rattle.fbc_console.specs.Bytes.{IsEmpty};
ghost use Rattle.fbc_console.specs.Script.{TakesAtMost};
ghost use Rattle.fbc_console.specs.Asking.{HasAsked, IsPlayable, WhyNotAsked, SpellsAsked, WhyNotSpelled};

use crate::reading::read_script;
use crate::statuses::Status;
use fbc_outside::Source;
use fbc_script::{ParseFault, ScriptFault, SingleTransaction, parse, single_transaction};
use std::alloc::Global;

/// Reads a script to its end, and says what it asks for, where it is empty or one transaction.
///
/// Errors: `SourceFault`, `SourceLong`, `Script` with the first faulty line and its cause, `Later`
/// for every other script, `OutOfMemory`.
pub fn read_asked<S: Source>(alloc: Global, script: &mut S) -> Result<SingleTransaction, Status>
    ensures asked { IfOk result (HasAsked (S.left script.old)) }
    ensures playable { IfOk result IsPlayable }
    ensures why { IfErr result (λ status. WhyNotAsked status (S.left script.old)) }
    ensures read_out { OnOk result (IsEmpty (S.left script.new)) }
    ensures bounded { TakesAtMost 4194305 (S.left script.old) (S.left script.new) }
    ensures source { IsBlamedFairly S.faults (result ≡ Err Status.SourceFault) script.old script.new }
{
    match read_script(alloc, script) {
        Ok(text) => spelled(alloc, text.as_slice()),
        Err(status) => Err(status),
    }
}

/// What a text asks for.
fn spelled(alloc: Global, text: &[u8]) -> Result<SingleTransaction, Status>
    requires { length text.now < 4294967295 }
    ensures asked { IfOk result (SpellsAsked text.now) }
    ensures playable { IfOk result IsPlayable }
    ensures why { IfErr result (λ status. WhyNotSpelled status text.now) }
{
    let script = match parse(alloc, text, false) {
        Ok(script) => script,
        Err(ParseFault::Script(ScriptFault { line, why })) => {
            return Err(Status::Script { line, why });
        }
        Err(ParseFault::Memory) => return Err(Status::OutOfMemory),
    };
    let _length = script.length;
    match single_transaction(alloc, &script) {
        Ok(Some(asked)) => Ok(asked),
        Ok(None) => Err(Status::Later),
        Err(_) => Err(Status::OutOfMemory),
    }
}
