//! Why a row has no answer.

use std::alloc::{AllocError, AllocFailed};
use std::num::ParseIntError;

/// Why a row has no answer.
#[derive(Debug, Drop)]
pub enum Fault {
    /// The row is none of its section.
    Unreadable,
    Memory,
}

impl From<AllocError> for Fault {
    fn from(_fault: AllocError) -> Fault {
        Fault::Memory
    }
}

impl<T: Drop> From<AllocFailed<T>> for Fault {
    fn from(_fault: AllocFailed<T>) -> Fault {
        Fault::Memory
    }
}

impl From<ParseIntError> for Fault {
    fn from(_fault: ParseIntError) -> Fault {
        Fault::Unreadable
    }
}
