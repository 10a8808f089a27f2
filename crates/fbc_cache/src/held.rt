//! The pages that are in use and those that are held, in rising order, and a use of one without a pin.

ghost use Rattle.std.specs.Prelude.{◌≡◌};
ghost use Rattle.fbc_buffers.specs.Holding.{AreApart};
ghost use Rattle.std.specs.List.{list_all};
ghost use Rattle.fbc_cache.specs.Least.{IsLeast, is_below_if_pinned, is_data_below, is_held_past, is_past, is_pinned_past};
ghost use Rattle.fbc_cache.specs.Use.{after_touch};

use crate::cache::Cache;
use fbc_buffers::Buffer;
use fbc_kinds::Page;
use fbc_precedence::lesser;

impl Cache {
    /// The page is the last one used, if it has a buffer.
    pub fn touch(&mut self, page: u32)
        ensures { self.new ≡ after_touch self.old page }
    {
        self.buffers.touch(page);
    }

    /// The least page past `above` that is in use, or of all where none is named.
    pub fn next_pinned(&self, above: Option<u32>) -> Option<u32>
        ensures { IsLeast (is_pinned_past self.now.held above) result }
    {
        self.holds();
        least_pinned(self.buffers.held(), above)
    }

    /// The least page past `above` that is held, as far as it was learnt, or of all where none is named.
    pub fn next_held(&self, above: Option<u32>) -> Option<u32>
        ensures { IsLeast (is_held_past self.now.held above) result }
    {
        self.holds();
        least_held(self.buffers.held(), above)
    }

    /// Whether data pages with smaller numbers alone are in use, or none.
    pub fn pins_are_below(&self, page: u32) -> bool
        ensures { result ≡ list_all (is_below_if_pinned page) self.now.held }
    {
        self.buffers
            .held()
            .iter()
            .all(|buffer| !buffer.is_pinned || is_data_below(buffer, page))
    }
}

/// The least page past `above` of those whose buffers are in use.
fn least_pinned(held: &[Buffer], above: Option<u32>) -> Option<u32>
    requires apart { AreApart held.now }
    ensures { IsLeast (is_pinned_past held.now above) result }
{
    let mut least = None;
    for buffer in held {
        if buffer.is_pinned && is_past(above, buffer.page) {
            least = Some(lesser(least, buffer.page));
        }
    }
    least
}

/// The least page past `above` of those whose buffers are granted.
fn least_held(held: &[Buffer], above: Option<u32>) -> Option<u32>
    requires apart { AreApart held.now }
    ensures { IsLeast (is_held_past held.now above) result }
{
    let mut least = None;
    for buffer in held {
        if buffer.wanted.is_none() && is_past(above, buffer.page) {
            least = Some(lesser(least, buffer.page));
        }
    }
    least
}

/// Whether the page comes after this one, if one is named.
fn is_past(above: Option<u32>, page: u32) -> bool
    ensures { result ≡ is_past above page }
{
    match above {
        Some(above) => above < page,
        None => true,
    }
}

/// Whether the buffer has a data page with a smaller number.
fn is_data_below(buffer: &Buffer, page: u32) -> bool
    ensures { result ≡ is_data_below page buffer.now }
{
    matches!(buffer.copy, Some(Page::Data(_))) && buffer.page < page
}
