//! Codecs of pages: the first rule that the bytes of a page break, or what they show.

ghost use Rattle.std.specs.Prelude.{◌≡◌, ◌≤◌, length as list_length};
ghost use Rattle.fbc_kinds.specs.Limits.{IsPageSize};

use crate::pages::described;
use crate::values::page_size;
use fbc_cells::{decode_data, decode_pointer, encode_data, encode_pointer};
use fbc_kinds::{Page, PageFault};
use fbc_pages::{
    decode_header, decode_inventory, decode_tip, encode_header, encode_inventory, encode_tip,
};
use fbc_samples::{FRESH, Fault, ONE_ROW, lay, lay_changes, page_of, words_of};
use std::alloc::Global;

/// The codecs, each for one kind of page.
#[derive(Clone, Copy, Debug, PartialEq, Eq)]
enum Codec {
    Header,
    Inventory,
    Tip,
    Pointer,
    /// Of values of at most 10 bytes.
    Data,
    /// Of values of at most 200 bytes.
    WideData,
}

impl Codec {
    fn named(name: &str) -> Result<Codec, Fault> {
        match name {
            "header" => Ok(Codec::Header),
            "inventory" => Ok(Codec::Inventory),
            "tip" => Ok(Codec::Tip),
            "pointer" => Ok(Codec::Pointer),
            "data" => Ok(Codec::Data),
            "wide_data" => Ok(Codec::WideData),
            _ => Err(Fault::Unreadable),
        }
    }

    /// The page that is changed: of a new file, or of one with a row, or zeros.
    fn sample(self) -> [u8; 1024] {
        match self {
            Codec::Header => page_of(FRESH, 0, &[]),
            Codec::Inventory => page_of(FRESH, 1, &[]),
            Codec::Tip => page_of(FRESH, 2, &[]),
            Codec::Pointer => page_of(ONE_ROW, 3, &[]),
            Codec::Data => page_of(ONE_ROW, 4, &[]),
            Codec::WideData => [0; 1024],
        }
    }

    /// Reads a page, and writes it again.
    fn recode(
        self,
        alloc: Global,
        size: u32,
        number: u32,
        bytes: &[u8],
        out: &mut [u8],
    ) -> Result<Page, PageFault>
        requires size { IsPageSize size }
        requires bytes { list_length bytes.now ≡ size }
        requires out { list_length out.old ≡ size }
    {
        match self {
            Codec::Header => {
                let header = decode_header(alloc, size, bytes)?;
                encode_header(&header, size, out);
                Ok(Page::Header(header))
            }
            Codec::Inventory => {
                let inventory = decode_inventory(alloc, size, number, bytes)?;
                encode_inventory(&inventory, size, out);
                Ok(Page::Inventory(inventory))
            }
            Codec::Tip => {
                let tip = decode_tip(alloc, size, number, bytes)?;
                encode_tip(&tip, size, out);
                Ok(Page::Tip(tip))
            }
            Codec::Pointer => {
                let pointer = decode_pointer(alloc, size, number, bytes)?;
                encode_pointer(&pointer, size, out);
                Ok(Page::Pointer(pointer))
            }
            Codec::Data => recode_data(alloc, size, 10, number, bytes, out),
            Codec::WideData => recode_data(alloc, size, 200, number, bytes, out),
        }
    }
}

/// Reads a data page of values of that length, and writes it again.
fn recode_data(
    alloc: Global,
    size: u32,
    longest: u8,
    number: u32,
    bytes: &[u8],
    out: &mut [u8],
) -> Result<Page, PageFault>
    requires size { IsPageSize size }
    requires value { longest ≤ 200 }
    requires bytes { list_length bytes.now ≡ size }
    requires out { list_length out.old ≡ size }
{
    let data = decode_data(alloc, size, longest, number, bytes)?;
    encode_data(&data, size, longest, out);
    Ok(Page::Data(data))
}

/// Answers one line: the kind of a page, the size of pages, the number under which it is read, and
/// the changes of its bytes.
pub fn answer(alloc: Global, line: &str) -> Result<String, Fault> {
    let words = words_of(alloc, line)?;
    let [kind, size, number, ref changes @ ..] = *words.as_slice() else {
        return Err(Fault::Unreadable);
    };
    let codec = Codec::named(kind)?;
    let size = page_size(size)?;
    let mut bytes = vec![in alloc; 0; size as usize]?;
    lay(0, &codec.sample(), &mut bytes);
    lay_changes(alloc, changes, &mut bytes)?;
    let mut again = vec![in alloc; 0xff; size as usize]?;
    let read = codec.recode(alloc, size, number.parse()?, &bytes, &mut again);
    told(alloc, read, bytes == again)
}

/// What was read, or the first rule that is broken, and whether other bytes were written for it.
pub fn told(alloc: Global, read: Result<Page, PageFault>, same: bool) -> Result<String, Fault> {
    match read {
        Ok(page) => {
            let mut out = described(alloc, &page)?;
            if !same {
                out.push_str(", written otherwise")?;
            }
            Ok(out)
        }
        Err(PageFault::Damaged { rule }) => Ok(format!(in alloc; "{rule}")?),
        Err(PageFault::Memory) => Err(Fault::Memory),
    }
}
