//! Pages of a file with one row, read by the kind that they name and spelled again.

ghost use Rattle.std.specs.Prelude.{◌≡◌};
ghost use Rattle.fbc_kinds.specs.HeaderSpelling.{IsFileShape};

use crate::codecs::told;
use fbc_kinds::Shape;
use fbc_samples::{Fault, ONE_ROW, lay_changes, page_of, words_of};
use fbc_spelling::{page_shown, spell_page};
use std::alloc::Global;

/// Answers one line: a page of the file, the number under which it is read, and the changes of its
/// bytes.
pub fn answer(alloc: Global, shape: &Shape, line: &str) -> Result<String, Fault>
    requires shape { IsFileShape shape.now }
    requires size { shape.now.size ≡ 1024 }
{
    let words = words_of(alloc, line)?;
    let [page, number, ref changes @ ..] = *words.as_slice() else {
        return Err(Fault::Unreadable);
    };
    let mut bytes = page_of(ONE_ROW, page.parse()?, &[]);
    lay_changes(alloc, changes, &mut bytes)?;
    let read = page_shown(alloc, shape, number.parse()?, &bytes);
    let mut again = [0xff; 1024];
    if let Ok(page) = &read {
        spell_page(shape, page, &mut again);
    }
    told(alloc, read, bytes == again)
}
