//! Makes a new file, and tells how many pages it has.

ghost use Rattle.std.specs.Prelude.{◌≡◌, ◌≤◌, List, ℕ, true, length, string_bytes, IfOk, IfErr};
ghost use Rattle.fbc_kinds.specs.declared.rules.Rule.{Rule};
ghost use Rattle.fbc_kinds.specs.Limits.{IsPageSize};
ghost use Rattle.fbc_files.specs.NewPages.{AreNewRelations};
ghost use Rattle.fbc_outside.specs.Frames.{IsBlamedFairly, IsFaithful, IsUnwritten};
ghost use Rattle.fbc_console.specs.Closing.{Took};
ghost use Rattle.fbc_console.specs.Making.{IsCreateDone, TellsVacant, created_line};

use crate::statuses::Status;
use fbc_files::{CreateFault, NewRelation, create_file, new_file_is_sound};
use fbc_outside::{Device, Sink, write_all};
use std::alloc::{AllocError, Global};

/// Makes a file with pages of `size` bytes and these relations, where nothing stands on the device,
/// and tells how many pages it has.
///
/// Errors: `Occupied` where something stands there, `DeviceFault`, `SinkFault`, `OutOfMemory`.
pub fn create<D: Device, K: Sink>(
    alloc: Global,
    size: u32,
    relations: &[NewRelation],
    device: &mut D,
    out: &mut K,
) -> Result<(), Status>
    requires reach { 262144 ≤ D.reach device.old }
    requires size { IsPageSize size }
    requires relations { AreNewRelations relations.now }
    ensures done { (told : List ℕ)
        × IsCreateDone size relations.now (D.bytes device.old) (D.bytes device.new) result told
        × Took result (K.may_have out.old) (K.may_have out.new) told }
    ensures device { IsFaithful D.reach D.faults (result ≡ Err Status.DeviceFault) device.old device.new }
    ensures sink { IsBlamedFairly K.faults (result ≡ Err Status.SinkFault) out.old out.new }
    ensures no_source { result ≡ Err Status.SourceFault → ⊥ }
    ensures no_refusal { (rule : Rule) → result ≡ Err (Status.NotOurs rule) → ⊥ }
{
    new_file_is_sound();
    match is_vacant(device) {
        Ok(true) => {}
        Ok(false) => return Err(Status::Occupied),
        Err(status) => return Err(status),
    }
    let line = match created_line(alloc, relations) {
        Ok(line) => line,
        Err(_) => return Err(Status::OutOfMemory),
    };
    match create_file(alloc, device, size, relations) {
        Ok(_) => match write_all(out, line.as_bytes()) {
            Ok(()) => Ok(()),
            Err(_) => Err(Status::SinkFault),
        },
        Err(CreateFault::Device) => Err(Status::DeviceFault),
        Err(CreateFault::Memory) => Err(Status::OutOfMemory),
    }
}

/// Whether nothing stands on a device.
///
/// Errors: `DeviceFault`.
fn is_vacant<D: Device>(device: &mut D) -> Result<bool, Status>
    ensures tells { IfOk result (λ vacant. TellsVacant vacant (D.bytes device.old)) }
    ensures unwritten { IsUnwritten D.bytes D.writes D.landings device.old device.new }
    ensures device { IsFaithful D.reach D.faults (result ≡ Err Status.DeviceFault) device.old device.new }
    ensures only { IfErr result (λ e. e ≡ Status.DeviceFault) }
{
    match device.length() {
        Ok(length) => Ok(length == 0),
        Err(_) => Err(Status::DeviceFault),
    }
}

/// The line that tells how many pages a new file has.
fn created_line(alloc: Global, relations: &[NewRelation]) -> Result<String, AllocError>
    requires { length relations.now ≤ 8 }
    ensures { IfOk result (λ line. string_bytes line ≡ created_line relations.now) }
{
    let pages = relations.len() + 3;
    format!(in alloc; "created {pages}\n")
}
