//! The steps over the device: a page is read or written.

ghost use Rattle.std.specs.Prelude.{◌≡◌, ◌∷◌, [], ◌+◌, ◌*◌, ◌≤◌, true, length, Bool, ℕ};
ghost use Rattle.fbc_outside.specs.Faults.{bump};
ghost use Rattle.fbc_outside.specs.Frames.{IsFaithful, IsUnwritten};
ghost use Rattle.fbc_region.specs.Adding.{Adds, UsesRoom, by};
ghost use Rattle.fbc_region.specs.Shared.{HasRoom};
ghost use Rattle.fbc_region.specs.Stepping.{BlamesDevice, ReadLeaves, WriteLeaves, answers_read, answers_write};
ghost use Rattle.fbc_world.specs.declared.events.Act.TheVariants as act;
ghost use Rattle.fbc_world.specs.History.{recorded};
ghost use Rattle.fbc_world.specs.Owners.{is_alive};

use crate::ledgers::Ledger;
use fbc_outside::Device;
use fbc_world::{Act, Answer, Cause};

/// The owner reads the page of that size into the buffer. What the device does not have of it is left as zeros.
pub(crate) fn read_page<D: Device>(
    device: &mut D,
    ledger: &mut Ledger,
    size: u32,
    who: u32,
    page: u32,
    image: &mut [u8],
) -> Answer
    requires image { length image.old ≡ size }
    requires room { HasRoom ledger.old 1 }
    ensures step { (fault : Bool) × (count : ℕ) × (result ≡ answers_read fault count) × Adds ledger.old ledger.new (by who (act.Read page fault) ∷ []) }
    ensures room { UsesRoom ledger.old ledger.new 1 }
    ensures read { ReadLeaves (D.bytes device.old) (page * size) image.new result }
    ensures image { length image.new ≡ size }
    ensures unwritten { IsUnwritten D.bytes D.writes D.landings device.old device.new }
    ensures reads { D.reads device.new ≡ bump (D.reads device.old) }
    ensures device { IsFaithful D.reach D.faults (BlamesDevice result) device.old device.new }
{
    match device.read_at(page as u64 * size as u64, image) {
        Ok(count) => {
            image[count..].fill(0);
            ledger.record(who, Act::Read { page, fault: false });
            Answer::PageIs {
                length: count as u32,
            }
        }
        Err(_) => {
            ledger.record(who, Act::Read { page, fault: true });
            Answer::ReadFault
        }
    }
}

/// The owner writes the page of that size. Where the write fails, it dies of that.
pub(crate) fn write_page<D: Device>(
    device: &mut D,
    ledger: &mut Ledger,
    size: u32,
    who: u32,
    page: u32,
    cause: Cause,
    image: &[u8],
) -> Answer
    requires alive { is_alive (recorded ledger.old) who ≡ true }
    requires image { length image.now ≡ size }
    requires reach { (page + 1) * size ≤ D.reach device.old }
    requires room { HasRoom ledger.old 1 }
    ensures step { (failed : Bool) × (result ≡ answers_write failed) × Adds ledger.old ledger.new (by who (act.Write page cause failed) ∷ []) }
    ensures room { UsesRoom ledger.old ledger.new 1 }
    ensures written { WriteLeaves (D.bytes device.old) (D.bytes device.new) (D.landings device.old) (D.landings device.new) (page * size) image.now result }
    ensures reads { D.reads device.new ≡ D.reads device.old }
    ensures writes { D.writes device.new ≡ bump (D.writes device.old) }
    ensures device { IsFaithful D.reach D.faults (BlamesDevice result) device.old device.new }
{
    match device.write_at(page as u64 * size as u64, image) {
        Ok(()) => {
            ledger.record(
                who,
                Act::Write {
                    page,
                    cause,
                    failed: false,
                },
            );
            Answer::Written
        }
        Err(_) => {
            ledger.fail(who, page, cause);
            Answer::WriteFault
        }
    }
}
