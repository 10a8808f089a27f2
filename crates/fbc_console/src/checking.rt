//! Checks a file, and tells what it finds.

ghost use Rattle.std.specs.Prelude.{◌≡◌, ◌≤◌, ◌^◌, List, ℕ, IfOk};
ghost use Rattle.fbc_kinds.specs.declared.rules.Rule.{Rule};
ghost use Rattle.fbc_outside.specs.Faults.{bump};
ghost use Rattle.fbc_outside.specs.Frames.{IsBlamedFairly, IsFaithful, IsUnwritten};
ghost use Rattle.fbc_console.specs.Checking.{IsCheckDone, IsReported, report};
ghost use Rattle.fbc_console.specs.Closing.{Took};

use crate::statuses::Status;
use fbc_outside::{Device, Sink, write_all};
use fbc_report::{json as json_report, text as text_report};
use fbc_validator::{Findings, ValidateFault, validate};
use std::alloc::{AllocError, Global};

/// Checks the file on the device, and tells its report: as JSON, or as text. Nothing is written to the
/// device.
///
/// Errors: `Damaged` where a page is damaged, with its report told; `NotOurs` where the file is
/// refused, `DeviceFault`, `SinkFault`, `OutOfMemory`.
pub fn check<D: Device, K: Sink>(
    alloc: Global,
    json: bool,
    device: &mut D,
    out: &mut K,
) -> Result<(), Status>
    requires reach { D.reach device.old ≤ 2 ^ 40 }
    ensures done { (told : List ℕ)
        × IsCheckDone json (D.reach device.old) (D.bytes device.old) (D.bytes device.new) result told
        × Took result (K.may_have out.old) (K.may_have out.new) told }
    ensures device { IsFaithful D.reach D.faults (result ≡ Err Status.DeviceFault) device.old device.new }
    ensures unwritten { IsUnwritten D.bytes D.writes D.landings device.old device.new }
    ensures refused_read { (rule : Rule)
        → result ≡ Err (Status.NotOurs rule)
        → D.reads device.new ≡ bump (D.reads device.old) }
    ensures sink { IsBlamedFairly K.faults (result ≡ Err Status.SinkFault) out.old out.new }
    ensures no_source { result ≡ Err Status.SourceFault → ⊥ }
{
    match validate(alloc, device) {
        Ok(found) => tell(alloc, json, &found, out),
        Err(ValidateFault::NotOurs(rule)) => Err(Status::NotOurs { rule }),
        Err(ValidateFault::DeviceFault) => Err(Status::DeviceFault),
        Err(ValidateFault::Memory) => Err(Status::OutOfMemory),
    }
}

/// Tells the report of what was found.
///
/// Errors: `Damaged` where a page is damaged, `SinkFault`, `OutOfMemory`.
fn tell<K: Sink>(alloc: Global, json: bool, found: &Findings, out: &mut K) -> Result<(), Status>
    ensures told { IsReported result json found.now (K.may_have out.old) (K.may_have out.new) }
    ensures no_refusal { (rule : Rule) → result ≡ Err (Status.NotOurs rule) → ⊥ }
    ensures sink { IsBlamedFairly K.faults (result ≡ Err Status.SinkFault) out.old out.new }
{
    let Ok(report) = report_of(alloc, json, found) else {
        return Err(Status::OutOfMemory);
    };
    if write_all(out, report.as_slice()).is_err() {
        return Err(Status::SinkFault);
    }
    if found.damages.len() == 0 {
        Ok(())
    } else {
        Err(Status::Damaged)
    }
}

/// The report of what was found.
fn report_of(alloc: Global, json: bool, found: &Findings) -> Result<Vec<u8>, AllocError>
    ensures { IfOk result (λ text. text.items ≡ report json found.now) }
{
    if json {
        json_report(alloc, found)
    } else {
        text_report(alloc, found)
    }
}
