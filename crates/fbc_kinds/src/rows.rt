//! The rows that a scan found.

ghost use Rattle.std.specs.Prelude.{◌≡◌, IfOk};

use crate::padded::Value;
use std::alloc::{AllocError, Global};
use std::marker::Model;
use std::sync::Arc;

/// Each row's number with its value, in rising order of the numbers, seen by contracts as the list of these.
/// A copy shares the list, and takes no memory; there are at most 2^63 - 1 copies at a time.
#[derive(Debug, Drop)]
pub struct Rows {
    items: Arc<Vec<(u32, Value)>>,
}

impl Model for Rows {
    ghost use Rattle.std.specs.Prelude.{List, ℕ};
    ghost use Rattle.std.specs.Arc.{arc_value};

    ghost Value = { List (ℕ × List ℕ) };

    ghost view = { λ rows. (arc_value rows.items).items };
}

impl Clone for Rows {
    ghost is_clone = { λ rows copy. copy ≡ rows };

    fn clone(&self) -> Result<Rows, AllocError> {
        let items = self.items.clone()?;
        Ok(Rows { items })
    }
}

impl Rows {
    /// These rows.
    pub fn new(alloc: Global, items: Vec<(u32, Value)>) -> Result<Rows, AllocError>
        ensures { IfOk result (λ rows. rows ≡ items.items) }
    {
        let items = Arc::new(alloc, items)?;
        Ok(Rows { items })
    }

    /// The rows, to be read.
    pub fn items(&self) -> &[(u32, Value)]
        ensures { result.now ≡ self.now }
    {
        self.items.as_slice()
    }
}
