//! What a call of the outside answers when it fails, and the calls of a device in memory that are
//! to fail.
ghost use Rattle.std.specs.Prelude.{◌≡◌, Some, codes};
ghost use Rattle.fbc_outside.specs.Faults.{bump};

use std::error::Error;
use std::fmt;

/// A call of the outside failed. Its object has counted the fault.
#[derive(Clone, Copy, Debug, PartialEq, Eq)]
pub struct Failed;

impl fmt::Display for Failed {
    ghost output = { λ _. Some (codes "the call failed") };

    fn fmt<W: fmt::Write>(&self, f: &mut fmt::Formatter<W>) -> fmt::Result {
        f.write_str("the call failed")
    }
}

impl Error for Failed {}

/// The calls of a device that can fail.
#[derive(Clone, Copy, Debug, PartialEq, Eq)]
pub enum CallKind {
    Length,
    Read,
    Write,
}

/// A call of a device in memory that is to fail: the `number`-th of its kind, counted from 1.
/// `landed` says whether a write that fails takes effect all the same.
#[derive(Clone, Copy, Debug, PartialEq, Eq)]
pub struct Fail {
    pub kind: CallKind,
    pub number: u64,
    pub landed: bool,
}

impl Fail {
    ghost use Rattle.fbc_outside.specs.Fails.{is_for};

    /// Whether the entry is for the call of this kind and number.
    pub(crate) fn is_for(&self, kind: CallKind, number: u64) -> bool
        ensures { result ≡ is_for kind number self.now }
    {
        self.kind == kind && self.number == number
    }
}

/// Counts one more fault, and is the answer of the call that it happened in.
pub(crate) fn count_fault(faults: &mut u64) -> Failed
    ensures { faults.new ≡ bump faults.old }
{
    *faults = faults.saturating_add(1);
    Failed
}
