//! The opening of a file, and the test for the fresh file.

ghost use Rattle.std.specs.Prelude.{◌≡◌, ◌≢◌, ◌⊎◌, IfOk, IfErr};
ghost use Rattle.fbc_outside.specs.Faults.{bump};
ghost use Rattle.fbc_outside.specs.Frames.{IsFaithful, IsUnwritten};
ghost use Rattle.fbc_files.specs.Opening.{IsOpened};
ghost use Rattle.fbc_console.specs.Opening.{WhyNotOpened, TellsFresh};

use crate::images::is_fresh_file;
use crate::statuses::Status;
use fbc_files::{OpenFault, Opened};
use fbc_outside::Device;
use std::alloc::Global;

/// The bytes of the fresh file.
const FRESH_SIZE: usize = 4096;

/// Opens a file: one call of `length`, and one read of its first 1,024 bytes. It reads once whether
/// the file is opened or refused, and at most once where a call was answered Failed.
///
/// Errors: `NotOurs` where the file is refused, with the first rule that it breaks, and `DeviceFault`
/// where a call was answered Failed.
pub fn open<D: Device>(device: &mut D) -> Result<Opened, Status>
    ensures opened { IfOk result (IsOpened (D.reach device.old) (D.bytes device.old)) }
    ensures refused { IfErr result (λ status. WhyNotOpened status (D.bytes device.old)) }
    ensures unwritten { IsUnwritten D.bytes D.writes D.landings device.old device.new }
    ensures reads { (D.reads device.new ≡ D.reads device.old) ⊎ (D.reads device.new ≡ bump (D.reads device.old)) }
    ensures read_once { result ≢ Err Status.DeviceFault → D.reads device.new ≡ bump (D.reads device.old) }
    ensures device { IsFaithful D.reach D.faults (result ≡ Err Status.DeviceFault) device.old device.new }
{
    match fbc_files::open(device) {
        Ok(opened) => Ok(opened),
        Err(OpenFault::NotOurs(rule)) => Err(Status::NotOurs { rule }),
        Err(OpenFault::DeviceFault) => Err(Status::DeviceFault),
    }
}

/// Whether the file is the fresh file.
///
/// Errors: `DeviceFault`, `OutOfMemory`.
pub fn is_fresh<D: Device>(alloc: Global, device: &mut D) -> Result<bool, Status>
    ensures tells { IfOk result (λ fresh. TellsFresh fresh (D.bytes device.old)) }
    ensures unwritten { IsUnwritten D.bytes D.writes D.landings device.old device.new }
    ensures device { IsFaithful D.reach D.faults (result ≡ Err Status.DeviceFault) device.old device.new }
    ensures only { IfErr result (λ e. (e ≡ Status.DeviceFault) ⊎ (e ≡ Status.OutOfMemory)) }
{
    let mut bytes = [0; FRESH_SIZE + 1];
    let count = match device.read_at(0, &mut bytes) {
        Ok(count) => count,
        Err(_) => return Err(Status::DeviceFault),
    };
    match is_fresh_file(alloc, &bytes[..count]) {
        Ok(fresh) => Ok(fresh),
        Err(_) => Err(Status::OutOfMemory),
    }
}
