//! What the readers of a cache answer.

use crate::driver::{PAGE, need};
use crate::steps::{Question, Seen};
use fbc_cache::Cache;
use fbc_samples::{Part, page_of};
use std::process::Abort;

/// What the cache answers.
pub(crate) fn answer(rt: &impl Abort, cache: &Cache, file: &[Part], question: &Question) -> Seen {
    match question {
        Question::Victim => Seen::Page(cache.victim()),
        Question::Dirty => Seen::Page(cache.dirty()),
        Question::NextPinned(above) => Seen::Page(cache.next_pinned(*above)),
        Question::NextHeld(above) => Seen::Page(cache.next_held(*above)),
        Question::Waits => Seen::Is(cache.waits()),
        Question::MayWant(page, level) => Seen::Is(cache.may_want(&need(*page, *level))),
        Question::HasCopy(page) => Seen::Is(cache.has_copy(*page)),
        Question::IsPinned(page) => Seen::Is(cache.pinned(*page)),
        Question::IsSpelled(page) => Seen::Is(is_spelled(rt, cache, file, *page)),
        Question::HasPairs(pairs) => Seen::Is(cache.pairs() == *pairs),
        Question::HasValue(page, k, bytes) => Seen::Is(has_value(rt, cache, *page, *k, bytes)),
        Question::Held(page) => Seen::Level(cache.level(*page)),
        Question::Slot(page, slot) => Seen::Number(cache.slot(*page, *slot)),
        Question::FirstEmpty(page) => Seen::Cell(cache.first_empty(*page)),
        Question::Header => Seen::Header(cache.next(), cache.tip_count(), cache.tip_page(0)),
        Question::Pointers(relation) => pointers(cache, *relation),
        Question::Shape => shape(cache),
        Question::Place(page) => place(cache, *page),
        Question::Version(page, k) => version(cache, *page, *k),
    }
}

fn pointers(cache: &Cache, relation: u8) -> Seen {
    let first = cache.pointer_page(relation, 0);
    Seen::Pointers(cache.pointer_count(relation), first)
}

fn shape(cache: &Cache) -> Seen {
    let shape = cache.shape();
    Seen::Shape(shape.size, shape.count, shape.limit)
}

fn place(cache: &Cache, page: u32) -> Seen {
    let place = cache.place(page);
    Seen::Place(place.kind, place.sequence)
}

fn version(cache: &Cache, page: u32, k: u16) -> Seen {
    Seen::Version(
        cache.flag(page, k),
        cache.number(page, k),
        cache.back_page(page, k),
        cache.back_cell(page, k),
        cache.value_length(page, k),
    )
}

/// Whether the page is spelled as it stands in the file.
fn is_spelled(rt: &impl Abort, cache: &Cache, file: &[Part], page: u32) -> bool {
    let mut out = [7; PAGE];
    assert!(*rt; cache.has_copy(page));
    assert!(*rt; cache.page_size() == 1024);
    cache.spell(page, &mut out);
    out.as_slice() == page_of(file, page, &[]).as_slice()
}

/// Whether the value of the cell at the front of `-----` makes these bytes.
fn has_value(rt: &impl Abort, cache: &Cache, page: u32, cell: u16, bytes: &[u8]) -> bool {
    let mut out = *b"-----";
    assert!(*rt; cache.value_length(page, cell) <= out.len());
    cache.copy_value(page, cell, &mut out);
    out.as_slice() == bytes
}
