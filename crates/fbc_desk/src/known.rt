//! What the header shows, kept also after it is given up.

ghost use Rattle.std.specs.Prelude.{◌≡◌, length, nat_lt};
ghost use Rattle.fbc_cache.specs.Readers.{number_at, tips_in};
ghost use Rattle.fbc_desk.specs.Desk.{with_cache};

use crate::desk::Desk;

impl Desk {
    /// What the header shows, where it may be used, is known from now on. What a clean one counts is in the file.
    pub(crate) fn learn(&mut self)
        ensures { self.new ≡ with_cache self.old self.old.cache }
    {
        if self.cache.place(0).kind != 1 {
            return;
        }
        self.counted = self.cache.inventories();
        if !self.cache.is_dirty(0) {
            self.written = self.counted;
        }
        self.learn_tips();
    }

    /// The transaction inventory pages that the header names are known from now on.
    fn learn_tips(&mut self)
        ensures { self.new ≡ record self.old { tips = tips_in self.old.cache } }
    {
        self.tips.clear();
        self.tips.extend_from_slice(self.cache.tips()).unwrap();
    }

    /// How many page inventory pages the header counts, as it last showed.
    pub fn counted(&self) -> u16
        ensures { result ≡ self.now.counted }
    {
        self.counted
    }

    /// Whether the file is known to count the page inventory of that sequence.
    pub fn is_in_file(&self, sequence: u32) -> bool
        ensures { result ≡ nat_lt sequence self.now.written }
    {
        sequence < self.written as u32
    }

    /// How many transaction inventory pages the header names, as it last showed.
    pub fn tip_count(&self) -> u32
        ensures { result ≡ length self.now.tips }
    {
        self.tips.len() as u32
    }

    /// The transaction inventory page of that sequence, as the header last showed, 0 where there is none.
    pub fn tip_page(&self, sequence: u32) -> u32
        ensures { result ≡ number_at self.now.tips sequence }
    {
        match self.tips.get(sequence as usize) {
            Some(page) => *page,
            None => 0,
        }
    }
}
