//! Opens a file: whether it is one of this store's, its shape and its length.

ghost use Rattle.std.specs.Prelude.{◌≡◌, ◌≢◌, ◌≤◌, ◌⊎◌, min, Err, IfOk, IfErr};
ghost use Rattle.fbc_outside.specs.Faults.{bump};
ghost use Rattle.fbc_outside.specs.Frames.{IsFaithful, IsUnwritten};
ghost use Rattle.fbc_files.specs.Opening.{IsOpened, WhyNotOpened};

use crate::faults::OpenFault;
use fbc_kinds::Shape;
use fbc_outside::Device;
use fbc_pages::recognise;

/// So many of a file's first bytes are read to recognise it.
const FIRST_BYTES: usize = 1024;

/// A file that was opened.
#[derive(Clone, Copy, Debug, PartialEq, Eq)]
pub struct Opened {
    /// What its first bytes show.
    pub shape: Shape,
    /// Its length in bytes.
    pub length: u64,
}

/// Opens a file: one call of `length`, and one read of its first 1,024 bytes. It reads once whether
/// the file is opened or refused, and at most once where a call was answered Failed.
///
/// # Errors
///
/// `NotOurs` where the file is refused, with the first rule that it breaks, and `DeviceFault` where a
/// call was answered Failed.
pub fn open<D: Device>(device: &mut D) -> Result<Opened, OpenFault>
    ensures opened { IfOk result (IsOpened (D.reach device.old) (D.bytes device.old)) }
    ensures refused { IfErr result (λ fault. WhyNotOpened fault (D.bytes device.old)) }
    ensures unwritten { IsUnwritten D.bytes D.writes D.landings device.old device.new }
    ensures reads { (D.reads device.new ≡ D.reads device.old) ⊎ (D.reads device.new ≡ bump (D.reads device.old)) }
    ensures read_once { result ≢ Err OpenFault.DeviceFault → D.reads device.new ≡ bump (D.reads device.old) }
    ensures device { IsFaithful D.reach D.faults (result ≡ Err OpenFault.DeviceFault) device.old device.new }
{
    let told = match device.length() {
        Ok(told) => told,
        Err(_) => return Err(OpenFault::DeviceFault),
    };
    let mut first = [0; FIRST_BYTES];
    let read = match device.read_at(0, &mut first) {
        Ok(read) => read,
        Err(_) => return Err(OpenFault::DeviceFault),
    };
    let count = seen_count(read, told);
    let length = seen_length(count, told);
    match recognise(&first[..count], length, device.reach()) {
        Ok(shape) => Ok(Opened { shape, length }),
        Err(rule) => Err(OpenFault::NotOurs(rule)),
    }
}

/// How many of the bytes that were read belong to a file of the length that was told: all of them
/// but where the file changed between the calls.
fn seen_count(read: usize, told: u64) -> usize
    ensures { result ≡ min read told }
{
    if (read as u64) < told {
        read
    } else {
        told as usize
    }
}

/// The length of a file of which so many first bytes were seen: the length that was told but where
/// the file changed between the calls.
fn seen_length(count: usize, told: u64) -> u64
    requires count { count ≤ 1024 }
    requires within { count ≤ told }
    ensures agrees { count ≡ min 1024 told → result ≡ told }
    ensures count { count ≡ min 1024 result }
    ensures within { result ≤ told }
{
    if count < FIRST_BYTES {
        count as u64
    } else {
        told
    }
}
