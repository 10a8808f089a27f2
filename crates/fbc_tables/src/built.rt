//! Pages that are built by edits from those of a fresh file, and spelled.

ghost use Rattle.std.specs.Prelude.{◌≡◌, IfOk};
ghost use Rattle.fbc_kinds.specs.Edits.{IsShape, IsWithinLimits};
ghost use Rattle.fbc_kinds.specs.HeaderSpelling.{IsFileShape};

use crate::edits::edit_of;
use fbc_apply::apply;
use fbc_kinds::{ApplyFault, Page, PageFault, Shape};
use fbc_samples::{
    Fault, UNFINISHED_UPDATE, lay_changes, page_of, parts_named, push_changes, words_of,
};
use fbc_spelling::{page_shown, spell_page};
use std::alloc::Global;

/// Answers one line: a file, the number of one of its pages and the changes of its bytes, and behind
/// them the edits of that page, each after a semicolon. What is told are the bytes that spell the page
/// after them, beside the page of that number in the file of an unfinished update.
pub fn answer(alloc: Global, shape: &Shape, line: &str) -> Result<String, Fault>
    requires shape { IsFileShape shape.now }
    requires size { shape.now.size ≡ 1024 }
{
    let (first, edits) = line.split_once("; ").ok_or(Fault::Unreadable)?;
    let words = words_of(alloc, first)?;
    let [file, number, ref changes @ ..] = *words.as_slice() else {
        return Err(Fault::Unreadable);
    };
    let number = number.parse()?;
    let mut bytes = page_of(parts_named(file)?, number, &[]);
    lay_changes(alloc, changes, &mut bytes)?;
    let page = first_page(alloc, shape, number, &bytes)?;
    let page = edited(alloc, shape, page, edits)?;
    let mut spelled = [0xff; 1024];
    spell_page(shape, &page, &mut spelled);
    let mut out = String::new(alloc);
    push_changes(&page_of(UNFINISHED_UPDATE, number, &[]), &spelled, &mut out)?;
    Ok(out)
}

/// The page that bytes show.
fn first_page(alloc: Global, shape: &Shape, number: u32, bytes: &[u8; 1024]) -> Result<Page, Fault>
    requires shape { IsFileShape shape.now }
    requires size { shape.now.size ≡ 1024 }
    ensures { IfOk result (IsWithinLimits shape.now) }
{
    match page_shown(alloc, shape, number, bytes) {
        Ok(page) => Ok(page),
        Err(PageFault::Damaged { rule: _ }) => Err(Fault::Unreadable),
        Err(PageFault::Memory) => Err(Fault::Memory),
    }
}

/// The page after edits, which stand between semicolons.
///
/// Errors: `Unreadable` where one is none or does not fit, `Memory`.
fn edited(alloc: Global, shape: &Shape, mut page: Page, edits: &str) -> Result<Page, Fault>
    requires shape { IsShape shape.now }
    requires page { IsWithinLimits shape.now page }
    ensures { IfOk result (IsWithinLimits shape.now) }
{
    for edit in edits.split("; ") {
        let words = words_of(alloc, edit)?;
        match apply(alloc, shape, &edit_of(&words)?, &mut page) {
            Ok(()) => (),
            Err(ApplyFault::Unfit) => return Err(Fault::Unreadable),
            Err(ApplyFault::Memory) => return Err(Fault::Memory),
        }
    }
    Ok(page)
}
