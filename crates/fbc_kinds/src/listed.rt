//! A list that a page or a reply holds.

ghost use Rattle.std.specs.Prelude.{◌≡◌, ◌++◌, [], ◌∷◌, ◌<◌, ◌≤◌, length, slice_get, slice_set, slice_index, IfOk, OnOk, OnErr, replicate};

use std::alloc::{AllocError, Global};
use std::marker::Model;

/// A growing list, seen by contracts as the list of its items.
#[derive(Debug, Drop)]
pub struct Listed<T> {
    items: Vec<T>,
}

impl<T> Model for Listed<T> {
    ghost use Rattle.std.specs.Prelude.{List};

    ghost Value = { List T };

    ghost view = { λ a. a.items.items };
}

impl<T> Listed<T> {
    /// The items of `items`, in their order.
    pub fn new(items: Vec<T>) -> Self
        ensures { result ≡ items.items }
    {
        Listed { items }
    }

    /// How many items there are.
    pub fn len(&self) -> usize
        ensures { result ≡ length self.now }
    {
        self.items.len()
    }

    /// The items, to be read.
    pub fn items(&self) -> &[T]
        ensures { result.now ≡ self.now }
    {
        self.items.as_slice()
    }

    /// Puts `item` in the place of the item at `at`.
    pub fn set(&mut self, at: usize, item: T)
    where
        T: Drop,
        requires { at < length self.old }
        ensures { self.new ≡ slice_set self.old at item }
    {
        self.items[at] = item;
    }

    /// Adds `item` at the end. Without memory the list stays as it was.
    pub fn push(&mut self, item: T) -> Result<(), AllocError>
    where
        T: Drop,
        ensures ok { OnOk result (self.new ≡ self.old ++ item ∷ []) }
        ensures err { OnErr result (self.new ≡ self.old) }
    {
        self.items.push(item)?;
        Ok(())
    }

    /// The items as a vector.
    pub fn into_vec(self) -> Vec<T>
        ensures { result.items ≡ self }
    {
        let Listed { items } = self;
        items
    }
}

impl<T: Copy> Listed<T> {
    /// `count` items, each of them `item`.
    pub fn filled(alloc: Global, item: T, count: usize) -> Result<Self, AllocError>
        ensures { IfOk result (λ list. list ≡ replicate count item) }
    {
        let mut list = Listed {
            items: Vec::new(alloc),
        };
        list.add_copies(item, count)?;
        Ok(list)
    }

    /// Adds `count` items at the end, each of them `item`. Without memory the list stays as it was.
    pub fn add_copies(&mut self, item: T, count: usize) -> Result<(), AllocError>
        ensures ok { OnOk result (self.new ≡ self.old ++ replicate count item) }
        ensures err { OnErr result (self.new ≡ self.old) }
    {
        let length = self.items.len();
        match length.checked_add(count) {
            Some(total) => self.items.resize(total, item),
            None => Err(AllocError),
        }
    }

    /// The same items in a list of its own.
    pub fn copied(&self, alloc: Global) -> Result<Self, AllocError>
        ensures { IfOk result (λ copy. copy ≡ self.now) }
    {
        let items = Vec::from_slice(alloc, self.items.as_slice())?;
        Ok(Listed { items })
    }
}
