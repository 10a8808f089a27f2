//! The pointer pages of every relation, as the header last showed them.

ghost use Rattle.std.specs.Prelude.{◌≡◌, ◌≤◌, [], IfOk, length, map};
ghost use Rattle.fbc_kinds.specs.declared.pages.Relation.{Relation as ARelation};
ghost use Rattle.fbc_cache.specs.Remembered.{AreFew, pointers_of};

use fbc_kinds::Relation;
use std::alloc::{AllocError, Global};
use std::marker::Model;

/// The pointer pages of one relation, seen as the list of their numbers by their sequence.
#[derive(Clone, Copy, Debug)]
pub(crate) struct PointerPages {
    count: u8,
    pages: [u32; 4],
}

impl Model for PointerPages {
    ghost use Rattle.std.specs.Prelude.{List, ℕ, length as length_of_list};

    ghost Value = { List ℕ };

    ghost use Rattle.fbc_kinds.specs.Padding.{text_of, IsPadded, padded, length-text_of, padded-text_of};

    ghost view = { λ a. text_of a.count a.pages };

    ghost invariant = { λ a. IsPadded 4 a.count a.pages };

    ghost inverse = { λ pages. record { count = length_of_list pages; pages = padded 4 pages } };

    ghost inverse_ok = { λ a is i. record { count = length-text_of 4 a.count a.pages is i; pages = padded-text_of 4 a.count a.pages is i } };
}

impl PointerPages {
    /// These pages.
    fn new(pages: &[u32]) -> Self
        requires { length pages.now ≤ 4 }
        ensures { result ≡ pages.now }
    {
        let mut places = [0; 4];
        places[..pages.len()].copy_from_slice(pages);
        PointerPages {
            count: pages.len() as u8,
            pages: places,
        }
    }

    /// The pages, by their sequence.
    fn pages(&self) -> &[u32]
        ensures pages { result.now ≡ self.now }
        ensures few { length result.now ≤ 4 }
    {
        &self.pages[..self.count as usize]
    }
}

/// What is remembered of the relations, by their numbers. It takes its memory whole at the beginning.
#[derive(Debug, Drop)]
pub(crate) struct Remembered {
    relations: Vec<PointerPages>,
}

impl Model for Remembered {
    ghost use Rattle.std.specs.Prelude.{◌≤◌, List, ℕ, vec_capacity};

    ghost Value = { List (List ℕ) };

    ghost view = { λ r. r.relations.items };

    ghost invariant = { λ r. 8 ≤ vec_capacity r.relations };
}

impl Remembered {
    /// Nothing is remembered.
    pub(crate) fn new(alloc: Global) -> Result<Self, AllocError>
        ensures { IfOk result (λ remembered. remembered ≡ []) }
    {
        let relations = Vec::with_capacity(alloc, 8)?;
        Ok(Remembered { relations })
    }

    /// What the header's entries show.
    pub(crate) fn set(&mut self, relations: &[Relation])
        requires few { AreFew relations.now }
        ensures { self.new ≡ map (λ (r : ARelation). r.pointers) relations.now }
    {
        self.relations.clear();
        for relation in relations {
            self.relations
                .push(PointerPages::new(relation.pointers.items()))
                .unwrap();
        }
    }

    /// The pointer pages of a relation, by their sequence: none where it is not known.
    pub(crate) fn pointers(&self, relation: u8) -> &[u32]
        ensures pages { result.now ≡ pointers_of self.now relation }
        ensures few { length result.now ≤ 4 }
    {
        match self.relations.get(relation as usize) {
            Some(pages) => pages.pages(),
            None => &[],
        }
    }
}
