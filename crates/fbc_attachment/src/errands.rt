//! The pages that are to be got before a part goes on.

use fbc_cache::Need;
use fbc_levels::Level;
use std::alloc::{AllocError, Global};

/// How many data pages a part remembers over a page that was not granted.
const MOST_REMEMBERED: usize = 16;

/// What is to be got before a part goes on: one page, and then the data pages that it remembers, each of which is used again
/// when it was got.
#[derive(Debug, Drop)]
pub(crate) struct Errands {
    pub(crate) first: Option<Need>,
    remembered: Vec<u32>,
    at: usize,
    level: Level,
}

impl Errands {
    pub(crate) fn new(alloc: Global) -> Result<Errands, AllocError> {
        Ok(Errands {
            first: None,
            remembered: Vec::with_capacity(alloc, MOST_REMEMBERED)?,
            at: 0,
            level: Level::Pr,
        })
    }

    /// Nothing is to be got.
    pub(crate) fn clear(&mut self) {
        self.first = None;
        self.remembered.clear();
        self.at = 0;
    }

    /// One data page more is remembered, to be got in this level. Where there is no place for it, none is.
    pub(crate) fn remember(&mut self, page: u32, level: Level) -> bool {
        self.level = level;
        if self.remembered.len() < MOST_REMEMBERED {
            self.remembered.push(page).is_ok()
        } else {
            false
        }
    }

    /// The page that is to be got next.
    pub(crate) fn current(&self) -> Option<Need> {
        match self.first {
            Some(need) => Some(need),
            None => self.remembered_need(),
        }
    }

    /// The remembered page that is to be got next.
    fn remembered_need(&self) -> Option<Need> {
        match self.remembered.get(self.at) {
            Some(page) => Some(Need {
                page: *page,
                level: self.level,
                wait: true,
                fresh: false,
            }),
            None => None,
        }
    }

    /// The page was got: whether it is a remembered one, which is to be used again.
    pub(crate) fn got(&mut self) -> bool {
        if self.first.is_some() {
            self.first = None;
            return false;
        }
        if self.at < self.remembered.len() {
            self.at += 1;
        }
        true
    }
}
