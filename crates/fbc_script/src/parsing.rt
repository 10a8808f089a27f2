//! Scripts from their bytes.

ghost use Rattle.std.specs.Prelude.{◌≡◌, ◌<◌, ◌++◌, ◌∷◌, [], not, length, count_by, IfOk, IfErr, OnOk};
ghost use Rattle.fbc_script.specs.Pieces as pieces;
ghost use Rattle.fbc_script.specs.Scripts.{IsScript, TellsFault};

use crate::faults::{ParseFault, ScriptFault};
use crate::orders::read_line;
use crate::pieces::{is_passed_over, split_piece};
use crate::script::{Line, Order, Script, Statement};
use fbc_kinds::Listed;
use std::alloc::{AllocError, Global};

/// The script that the bytes spell, or the first faulty line and its cause. With `threads` the lines
/// `post`, `step`, `run` and `reopen` are faulty by `Word`.
pub fn parse(alloc: Global, bytes: &[u8], threads: bool) -> Result<Script, ParseFault>
    requires { length bytes.now < 4294967295 }
    ensures ok { IfOk result (λ script. IsScript threads bytes.now script) }
    ensures fault { IfErr result (TellsFault threads bytes.now) }
{
    let mut lines = Listed::new(Vec::with_capacity(alloc, count_kept(bytes))?);
    let mut rest = bytes;
    let mut number = 0u32;
    while let Some((line, after)) = split_piece(rest, b'\n') {
        number += 1;
        if !is_passed_over(line) {
            match read_line(threads, line) {
                Ok(order) => push(&mut lines, number, order)?,
                Err(why) => return Err(ParseFault::Script(ScriptFault { line: number, why })),
            }
        }
        rest = after;
    }
    Ok(Script {
        lines,
        length: number,
    })
}

/// How many lines are not passed over.
fn count_kept(bytes: &[u8]) -> usize
    ensures { result ≡ count_by (λ line. not (pieces.is_passed_over line)) (pieces.split_lines bytes.now) }
{
    let mut rest = bytes;
    let mut count = 0;
    while let Some((line, after)) = split_piece(rest, b'\n') {
        if !is_passed_over(line) {
            count += 1;
        }
        rest = after;
    }
    count
}

/// Adds a line at the end.
fn push(lines: &mut Listed<Line>, number: u32, order: Order) -> Result<(), AllocError>
    ensures { OnOk result (lines.new ≡ lines.old ++ record { number = number; order = order } ∷ []) }
{
    let _told: Option<(&Order, &Statement)> = None;
    lines.push(Line { number, order })
}
