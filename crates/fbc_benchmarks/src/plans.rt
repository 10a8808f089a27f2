//! Which pages a sound file with any number of data pages has.
//!
//! The file has eight relations, each with its four pointer pages. The data pages come behind these,
//! and fill the relations one after the other.

ghost use Rattle.std.specs.Prelude.{◌≡◌, ◌≤◌, ◌<◌, length, true, IfSome};
ghost use Rattle.fbc_kinds.specs.Limits.{IsPageSize, inventory_bits};
ghost use Rattle.fbc_benchmarks.specs.Plans.{IsPlan};

use fbc_kinds::Shape;
use fbc_pages::head::write_head;
use fbc_pages::numbers::{write_numbers, write_u32};
use fbc_pages::recognise;

/// The transactions that made the versions, all committed: 1 and 2.
pub const TRANSACTIONS: u32 = 2;

/// The first page inventory, behind the header.
pub const INVENTORY: u32 = 1;

/// The transaction inventory page.
pub const TIP: u32 = 2;

/// The first pointer page.
pub const FIRST_POINTER: u32 = 3;

/// The first data page, behind four pointer pages of eight relations.
pub const FIRST_DATA: u32 = 35;

/// The greatest length of a value. With it a cell has 40 bytes.
const VALUE_LENGTH: u8 = 28;

/// How far the file's device may reach, in bytes.
const REACH: u64 = 1 << 40;

/// A file that is to be made.
#[derive(Drop)]
pub struct Plan {
    pub shape: Shape,
    /// How many data pages it has.
    pub data_pages: u32,
}

impl Plan {
    /// The plan of a file with pages of `size` bytes. There is none where a page can't have that
    /// size, or the pointer pages have too few slots.
    pub fn new(size: u32, data_pages: u32) -> Option<Plan>
        ensures { IfSome result IsPlan }
    {
        if !is_page_size(size) || data_pages > 32 * slots(size) {
            return None;
        }
        let mut first = [0; 1024];
        write_header(size, data_pages, &mut first);
        // The header shows one shape in files of all lengths, so that of one page serves.
        let shape = recognise(&first, u64::from(size), REACH).ok()?;
        Some(Plan { shape, data_pages })
    }

    /// How many pages the file has.
    pub fn pages(&self) -> u32
        requires { IsPlan self.now }
        ensures { result ≤ 130980 }
    {
        data_page(self.shape.size, self.data_pages)
    }

    /// The number of a data page, which is counted over all relations.
    pub fn data_page(&self, place: u32) -> u32
        requires plan { IsPlan self.now }
        requires place { place ≤ 130944 }
    {
        data_page(self.shape.size, place)
    }

    /// Writes the header over zeros.
    pub fn write_header(&self, out: &mut [u8])
        requires plan { IsPlan self.now }
        requires length { 400 ≤ length out.old }
    {
        write_header(self.shape.size, self.data_pages, out);
    }
}

/// Whether a page can have so many bytes.
fn is_page_size(size: u32) -> bool
    ensures { result ≡ true → IsPageSize size }
{
    matches!(size, 1024 | 2048 | 4096 | 8192 | 16384)
}

/// How many slots a pointer page has.
pub fn slots(size: u32) -> u32
    requires { IsPageSize size }
    ensures some { 252 ≤ result }
    ensures most { result ≤ 4092 }
{
    (size - 16) / 4
}

/// How many pages a page inventory covers.
pub fn covered(size: u32) -> u32
    requires { IsPageSize size }
    ensures value { result ≡ inventory_bits size }
    ensures some { 8064 ≤ result }
    ensures most { result ≤ 130944 }
{
    (size - 16) * 8
}

/// The number of a data page, which is counted over all relations. The second page inventory lies
/// between the data pages.
fn data_page(size: u32, place: u32) -> u32
    requires size { IsPageSize size }
    requires place { place ≤ 130944 }
    ensures { result ≤ 130980 }
{
    let number = FIRST_DATA + place;
    if number < covered(size) {
        number
    } else {
        number + 1
    }
}

/// Writes the header of a file with so many data pages over zeros.
fn write_header(size: u32, data_pages: u32, out: &mut [u8])
    requires size { IsPageSize size }
    requires data_pages { data_pages ≤ 130944 }
    requires length { 400 ≤ length out.old }
{
    write_head(1, 0, 0, 0, out);
    out[16..24].copy_from_slice(b"FBCPAGES");
    write_u32(size, 24, out);
    write_u32(1, 28, out);
    write_u32(TRANSACTIONS + 1, 32, out);
    out[36] = 8;
    out[38] = if FIRST_DATA + data_pages < covered(size) {
        1
    } else {
        2
    };
    out[40] = 1;
    for relation in 0..8 {
        write_relation(relation, &mut out[48 + 36 * relation..84 + 36 * relation]);
    }
    write_u32(TIP, 336, out);
}

/// Writes the entry of a relation over zeros. The names are `a` to `h`.
fn write_relation(relation: usize, out: &mut [u8])
    requires relation { relation < 8 }
    requires length { length out.old ≡ 36 }
{
    let first = FIRST_POINTER + 4 * relation as u32;
    out[0] = 1;
    out[1] = b'a' + relation as u8;
    out[16] = VALUE_LENGTH;
    out[18] = 4;
    write_numbers(&[first, first + 1, first + 2, first + 3], 20, 4, out);
}
