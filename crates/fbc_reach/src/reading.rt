//! The bytes in a page's place.

ghost use Rattle.std.specs.Prelude.{◌≡◌, ◌≤◌, ◌-◌, ◌++◌, length, take, replicate, is_err, Err, IfOk, OnOk, IsTrue};
ghost use Rattle.fbc_kinds.specs.HeaderSpelling.{IsFileShape};
ghost use Rattle.fbc_reach.specs.Content.{IsReadOf};
ghost use Rattle.fbc_outside.specs.Faults.{bump};
ghost use Rattle.fbc_outside.specs.Frames.{IsFaithful, IsUnwritten};
ghost use Rattle.fbc_reach.specs.Reading.{AreBytesOf};

use crate::content::{PageRead, content_shown};
use crate::faults::ReadFault;
use fbc_kinds::Shape;
use fbc_outside::{Device, Failed};
use std::alloc::Global;

/// Reads the bytes in a page's place into `buffer`, which has the page's size: zeros past the
/// file's end. The device's bytes stay as they are.
pub(crate) fn read_page<D: Device>(
    device: &mut D,
    number: u32,
    buffer: &mut [u8],
) -> Result<(), Failed>
    requires size { length buffer.old ≤ 16384 }
    ensures read { OnOk result (AreBytesOf (D.bytes device.old) (length buffer.old) number buffer.new) }
    ensures length { length buffer.new ≡ length buffer.old }
    ensures reads { D.reads device.new ≡ bump (D.reads device.old) }
    ensures unwritten { IsUnwritten D.bytes D.writes D.landings device.old device.new }
    ensures device { IsFaithful D.reach D.faults (IsTrue (is_err result)) device.old device.new }
{
    let at = u64::from(number) * buffer.len() as u64;
    let count = device.read_at(at, buffer)?;
    clear_from(buffer, count);
    Ok(())
}

/// Reads the page of a number, at most once, and keeps of it what the walk needs. The device's
/// bytes stay as they are.
pub(crate) fn read_content<D: Device>(
    alloc: Global,
    device: &mut D,
    shape: &Shape,
    number: u32,
) -> Result<PageRead, ReadFault>
    requires { IsFileShape shape.now }
    ensures read { IfOk result (IsReadOf shape.now number (D.bytes device.old)) }
    ensures once { OnOk result (D.reads device.new ≡ bump (D.reads device.old)) }
    ensures unwritten { IsUnwritten D.bytes D.writes D.landings device.old device.new }
    ensures device { IsFaithful D.reach D.faults (result ≡ Err ReadFault.DeviceFault) device.old device.new }
{
    let bytes = read_bytes(alloc, device, shape.size, number)?;
    Ok(content_shown(alloc, shape, number, &bytes)?)
}

/// Reads the bytes in a page's place.
pub fn read_bytes<D: Device>(
    alloc: Global,
    device: &mut D,
    size: u32,
    number: u32,
) -> Result<Vec<u8>, ReadFault>
    requires { size ≤ 16384 }
    ensures read { IfOk result (λ bytes. AreBytesOf (D.bytes device.old) size number bytes.items) }
    ensures length { IfOk result (λ bytes. length bytes.items ≡ size) }
    ensures once { OnOk result (D.reads device.new ≡ bump (D.reads device.old)) }
    ensures unwritten { IsUnwritten D.bytes D.writes D.landings device.old device.new }
    ensures device { IsFaithful D.reach D.faults (result ≡ Err ReadFault.DeviceFault) device.old device.new }
{
    let mut bytes = vec![in alloc; 0u8; size as usize]?;
    read_page(device, number, &mut bytes)?;
    Ok(bytes)
}

/// Puts zeros behind the first `count` bytes.
fn clear_from(buffer: &mut [u8], count: usize)
    requires { count ≤ length buffer.old }
    ensures { buffer.new ≡ take count buffer.old ++ replicate (length buffer.old - count) 0 }
{
    buffer[count..].fill(0);
}
