//! Pointer pages.

ghost use Rattle.std.specs.Prelude.{◌≡◌, ◌<◌, ◌*◌, length, IfOk};
ghost use Rattle.std.specs.List.{All, flat_map};
ghost use Rattle.fbc_kinds.specs.Head.{Gives, little_bytes};
ghost use Rattle.fbc_kinds.specs.Limits.{IsPageSize, number_limit};
ghost use Rattle.fbc_kinds.specs.PointerSpelling.{IsPointer, SpellsPointer, broken_pointer};

use crate::starts::{bytes_from, read_start};
use byteorder::{ByteOrder, LittleEndian};
use fbc_kinds::{Listed, PageFault, Pointer};
use fbc_pages::head::write_head;
use std::alloc::{AllocError, Global};

/// Writes the one spelling of the page into `out`, which has the page's size.
pub fn encode_pointer(page: &Pointer, size: u32, out: &mut [u8])
    requires size { IsPageSize size }
    requires length { length out.old ≡ size }
    requires page { IsPointer size page.now }
    ensures { SpellsPointer size page.now out.new }
{
    LittleEndian::write_u32_into(page.slots.items(), &mut out[16..]);
    write_head(4, page.relation as u16, page.page, page.sequence, out);
}

/// Reads as many slots as there are.
fn fill_slots(bytes: &[u8], slots: &mut [u32])
    requires { length bytes.now ≡ 4 * length slots.old }
    ensures fits { All (λ number. number < number_limit) slots.new }
    ensures slots { bytes.now ≡ flat_map (little_bytes 4) slots.new }
{
    LittleEndian::read_u32_into(bytes, slots);
}

/// Reads the slots that stand in these bytes.
fn read_slots(alloc: Global, bytes: &[u8], count: usize) -> Result<Vec<u32>, AllocError>
    requires { length bytes.now ≡ 4 * count }
    ensures count { IfOk result (λ slots. length slots.items ≡ count) }
    ensures fits { IfOk result (λ slots. All (λ number. number < number_limit) slots.items) }
    ensures slots { IfOk result (λ slots. bytes.now ≡ flat_map (little_bytes 4) slots.items) }
{
    let mut slots = vec![in alloc; 0u32; count]?;
    fill_slots(bytes, &mut slots);
    Ok(slots)
}

/// Reads the pointer page of number `page`, of `size` bytes.
///
/// # Errors
///
/// `Damaged` names the first rule that the bytes break, exactly where they spell no such page.
pub fn decode_pointer(
    alloc: Global,
    size: u32,
    page: u32,
    bytes: &[u8],
) -> Result<Pointer, PageFault>
    requires size { IsPageSize size }
    requires length { length bytes.now ≡ size }
    ensures page { IfOk result (λ pointer. pointer.page ≡ page) }
    ensures found { IfOk result (λ pointer. SpellsPointer size pointer bytes.now) }
    ensures exact { Gives result (broken_pointer page bytes.now) }
{
    let start = read_start(4, page, bytes)?;
    let slots = read_slots(alloc, bytes_from(bytes, 16), (size as usize - 16) / 4)?;
    Ok(Pointer {
        page,
        relation: start.relation,
        sequence: start.sequence,
        slots: Listed::new(slots),
    })
}
