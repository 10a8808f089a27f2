//! Writes whole pages to a device, one after another.

ghost use Rattle.std.specs.Prelude.{◌≤◌, ◌<◌, is_err, OnOk, IsTrue, All};
ghost use Rattle.fbc_outside.specs.Frames.{IsFaithful};
ghost use Rattle.fbc_console.specs.Writes.{IsAfter, IsAfterSome, IsPut, IsPutOrNot};

use fbc_outside::{Device, Failed};

/// The bytes of a page.
pub const PAGE_SIZE: usize = 1024;

/// A page's number and its bytes.
#[derive(Clone, Copy, Debug, PartialEq, Eq)]
pub struct PageImage {
    pub page: u32,
    pub bytes: [u8; PAGE_SIZE],
}

/// Writes these pages in their order. Where a write is answered Failed, the pages before it are
/// written, it may be written or not, and no later one is.
pub fn write_images<D: Device>(device: &mut D, images: &[PageImage]) -> Result<(), Failed>
    requires reach { 262144 ≤ D.reach device.old }
    requires pages { All (λ image. image.page < 256) images.now }
    ensures ok { OnOk result (IsAfter (D.bytes device.old) (D.bytes device.new) images.now) }
    ensures some { IsAfterSome (D.bytes device.old) (D.bytes device.new) images.now }
    ensures device { IsFaithful D.reach D.faults (IsTrue (is_err result)) device.old device.new }
{
    for image in images {
        write_image(device, image)?;
    }
    Ok(())
}

/// Writes one page in its place.
fn write_image<D: Device>(device: &mut D, image: &PageImage) -> Result<(), Failed>
    requires reach { 262144 ≤ D.reach device.old }
    requires page { image.now.page < 256 }
    ensures ok { OnOk result (IsPut (D.bytes device.old) (D.bytes device.new) image.now) }
    ensures some { IsPutOrNot (D.bytes device.old) (D.bytes device.new) image.now }
    ensures device { IsFaithful D.reach D.faults (IsTrue (is_err result)) device.old device.new }
{
    device.write_at(u64::from(image.page) * 1024, &image.bytes)
}
