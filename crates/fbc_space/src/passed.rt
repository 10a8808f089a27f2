//! Pages that are passed over.

ghost use Rattle.std.specs.Prelude.{◌≡◌, ◌≤◌, [], length};
ghost use Rattle.fbc_space.specs.Passed.{is_passed, with_page};

use std::marker::Model;

/// How many pages a part passes over at most.
const MOST_PASSED: usize = 16;

/// At most 16 pages that a part of a statement passes over, seen by contracts as the list of them, the oldest first.
#[derive(Clone, Copy, Debug, PartialEq, Eq)]
pub struct Passed {
    count: u8,
    pages: [u32; 16],
}

impl Model for Passed {
    ghost use Rattle.std.specs.Prelude.{List, ℕ, length as length_of_list};

    ghost Value = { List ℕ };

    ghost use Rattle.fbc_kinds.specs.Padding.{text_of, IsPadded, padded, length-text_of, padded-text_of};

    ghost view = { λ p. text_of p.count p.pages };

    ghost invariant = { λ p. IsPadded 16 p.count p.pages };

    ghost inverse = { λ pages. record { count = length_of_list pages; pages = padded 16 pages } };

    ghost inverse_ok = { λ p is i. record { count = length-text_of 16 p.count p.pages is i; pages = padded-text_of 16 p.count p.pages is i } };
}

impl Passed {
    /// No page is passed over.
    pub fn new() -> Self
        ensures { result ≡ [] }
    {
        Passed {
            count: 0,
            pages: [0; 16],
        }
    }

    /// How many pages are passed over.
    pub fn len(&self) -> usize
        ensures count { result ≡ length self.now }
        ensures few { length self.now ≤ 16 }
    {
        self.count as usize
    }

    /// Whether the page is passed over.
    pub fn contains(&self, page: u32) -> bool
        ensures { result ≡ is_passed self.now page }
    {
        self.pages[..self.count as usize].contains(&page)
    }

    /// The page is passed over from now on, if there is a place for it.
    pub fn add(&mut self, page: u32)
        ensures { self.new ≡ with_page page self.old }
    {
        let count = self.len();
        if self.contains(page) || count == MOST_PASSED {
            return;
        }
        self.pages[count] = page;
        self.count += 1;
    }
}
