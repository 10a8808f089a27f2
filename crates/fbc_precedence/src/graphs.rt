//! The graph and its calls.

ghost use Rattle.std.specs.Prelude.{◌≡◌, ◌↔◌, ◌≢◌, [], IsTrue, IfOk};
ghost use Rattle.fbc_precedence.specs.declared.related.Related.TheVariants as answers;
ghost use Rattle.fbc_precedence.specs.Precedence.{ComesBefore, AreUnrelated, IsBlocked, IsNextToWrite, IsPrecedence, HasRoom, after_relate, cleared};

use crate::pages::{self, MOST_PAGES};
use crate::related::Related;
use crate::search;
use fbc_kinds::Edge;
use std::alloc::{AllocError, Global};
use std::marker::Model;

/// The pairs "high before low" of one attachment's pages, seen as the list of them, the oldest
/// first, with the number of pages that may stand in it. No page stands before itself.
#[derive(Drop)]
pub struct Graph {
    buffers: u32,
    pairs: Vec<Edge>,
}

impl Model for Graph {
    ghost use Rattle.std.specs.Prelude.{vec_capacity};
    ghost use Rattle.fbc_precedence.specs.Precedence.{Precedence};
    ghost use Rattle.fbc_precedence.specs.Room.{IsGraph};

    ghost Value = { Precedence };

    ghost view = { λ g. record { buffers = g.buffers; pairs = g.pairs.items } };

    ghost invariant = { λ g. IsGraph g.buffers g.pairs.items (vec_capacity g.pairs) };
}

impl Graph {
    /// A graph without pairs, in which so many pages may stand, with all the memory that it will
    /// ever take. There is none for more than 512 pages.
    pub fn new(alloc: Global, buffers: u32) -> Result<Graph, AllocError>
        ensures { IfOk result (λ graph. graph ≡ record { buffers = buffers; pairs = [] }) }
    {
        if buffers > MOST_PAGES {
            return Err(AllocError);
        }
        let pairs = Vec::with_capacity(alloc, (buffers * buffers / 2) as usize)?;
        Ok(Graph { buffers, pairs })
    }

    /// The pairs that are recorded, the oldest first.
    pub fn pairs(&self) -> &[Edge]
        ensures { result.now ≡ self.now.pairs }
    {
        &self.pairs
    }

    /// Whether no more pages than there are buffers stand in the graph with these two.
    pub fn has_room(&self, high: u32, low: u32) -> bool
        ensures { IsTrue result ↔ HasRoom self.now high low }
    {
        let mut pages = pages::pages_of(&self.pairs);
        pages::add_pages(&mut pages, high, low);
        pages.len() <= self.buffers as usize
    }

    /// Records that `high` is to be written before `low`, unless one of them stands before the
    /// other already. Another answer than `Recorded` changes nothing.
    pub fn relate(&mut self, high: u32, low: u32) -> Related
        requires differ { high ≢ low }
        requires room { HasRoom self.old high low }
        ensures already { (result ≡ answers.Already) ↔ ComesBefore self.old.pairs high low }
        ensures write_first { (result ≡ answers.WriteFirst low) ↔ ComesBefore self.old.pairs low high }
        ensures recorded { (result ≡ answers.Recorded) ↔ AreUnrelated self.old.pairs high low }
        ensures after { self.new ≡ after_relate self.old high low result }
        ensures order { IsPrecedence self.new }
    {
        if search::stands_before(&self.pairs, high, low) {
            return Related::Already;
        }
        if search::stands_before(&self.pairs, low, high) {
            return Related::WriteFirst { page: low };
        }
        pages::add_pair(&mut self.pairs, high, low);
        Related::Recorded
    }

    /// Removes every pair in which the page stands.
    pub fn clear(&mut self, page: u32)
        ensures after { self.new ≡ cleared self.old page }
        ensures order { IsPrecedence self.new }
    {
        pages::remove_page(&mut self.pairs, page);
    }

    /// The least page without a page before it, among this page and those that stand before it.
    pub fn next_to_write(&self, page: u32) -> u32
        ensures { IsNextToWrite self.now.pairs page result }
    {
        search::next_to_write(&self.pairs, page)
    }

    /// Whether pairs lead from the high page to the low one. None lead from a page to itself.
    pub fn leads(&self, high: u32, low: u32) -> bool
        ensures { IsTrue result ↔ ComesBefore self.now.pairs high low }
    {
        high != low && search::stands_before(&self.pairs, high, low)
    }

    /// Whether some page stands before this one.
    pub fn blocked(&self, page: u32) -> bool
        ensures { IsTrue result ↔ IsBlocked self.now.pairs page }
    {
        search::blocked(&self.pairs, page)
    }
}
