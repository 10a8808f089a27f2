//! What is locked, and what is said about it: requests, callbacks and circles of waiting owners.

ghost use Rattle.std.specs.Prelude.{◌≡◌, ◌≤◌, length};
ghost use Rattle.fbc_levels.specs.Resources.{is_same_series, is_same_resource, page_resource};

use crate::levels::Level;
use std::marker::Model;

/// The kind of thing that is locked.
#[derive(Clone, Copy, Debug, PartialEq, Eq)]
pub enum Series {
    Page,
    Transaction,
    Relation,
}

/// What is locked: the page, transaction or relation of that number.
#[derive(Clone, Copy, Debug, PartialEq, Eq)]
pub struct Resource {
    pub series: Series,
    pub key: u32,
}

impl Resource {
    /// The page of this number as what is locked.
    pub fn page(number: u32) -> Resource
        ensures { result ≡ page_resource number }
    {
        Resource {
            series: Series::Page,
            key: number,
        }
    }
}

/// Asks an owner to lower its lock on a page to `keep`, since `asker` waits for it.
#[derive(Clone, Copy, Debug, PartialEq, Eq)]
pub struct Callback {
    pub page: u32,
    pub keep: Level,
    pub asker: u32,
}

/// An owner's request for a resource: the level that is granted, the level that it waits for if
/// it waits, its data word, and whether the owner is alive.
#[derive(Clone, Copy, Debug, PartialEq, Eq)]
pub struct Request {
    pub owner: u32,
    pub resource: Resource,
    pub granted: Level,
    pub waiting: Option<Level>,
    pub word: u32,
    pub alive: bool,
}

/// Owners each of which waits for the next, and the last for the first: at most eight, seen by
/// contracts as their list.
#[derive(Clone, Copy, Debug, PartialEq, Eq)]
pub struct Cycle {
    length: u8,
    owners: [u32; 8],
}

impl Model for Cycle {
    ghost use Rattle.std.specs.Prelude.{List, ℕ, length as length_of};

    ghost Value = { List ℕ };

    ghost use Rattle.fbc_levels.specs.Owners.{owners_of, places_for, IsPadded, length-owners_of, places_for-owners_of};

    ghost view = { λ c. owners_of c.length c.owners };

    ghost invariant = { λ c. IsPadded c.length c.owners };

    ghost inverse = { λ owners. record { length = length_of owners; owners = places_for owners } };

    ghost inverse_ok = { λ c is i. record { length = length-owners_of c.length c.owners is i; owners = places_for-owners_of c.length c.owners is i } };
}

impl Cycle {
    /// The circle of these owners.
    pub fn new(owners: &[u32]) -> Self
        requires { length owners.now ≤ 8 }
        ensures { result ≡ owners.now }
    {
        let mut places = [0; 8];
        places[..owners.len()].copy_from_slice(owners);
        Cycle {
            length: owners.len() as u8,
            owners: places,
        }
    }

    /// The owners, in the order of waiting.
    pub fn owners(&self) -> &[u32]
        ensures same { result.now ≡ self.now }
        ensures few { length result.now ≤ 8 }
    {
        &self.owners[..self.length as usize]
    }
}

impl Series {
    /// Whether both are pages, transactions or relations.
    pub fn is_same(self, other: Series) -> bool
        ensures { result ≡ is_same_series self other }
    {
        matches!(
            (self, other),
            (Series::Page, Series::Page)
                | (Series::Transaction, Series::Transaction)
                | (Series::Relation, Series::Relation)
        )
    }
}

impl Resource {
    /// Whether both are the same page, transaction or relation.
    pub fn is_same(self, other: Resource) -> bool
        ensures { result ≡ is_same_resource self other }
    {
        self.series.is_same(other.series) && self.key == other.key
    }
}
