//! The open transaction of an attachment, and what a part of its statement has done.

ghost use Rattle.std.specs.Prelude.{◌≡◌};
ghost use Rattle.fbc_desk.specs.Grounds.{support_of_deed, takes};

use fbc_kinds::Snapshot;

/// The open transaction.
#[derive(Debug, Drop)]
pub struct Own {
    /// Its number, and what it took of the others as it began.
    pub snapshot: Snapshot,
    /// Whether the header gives the next number out, as this attachment edited it.
    pub is_raised: bool,
    /// Whether it is marked as committed: it edits nothing more.
    pub is_sealed: bool,
}

/// Something that an edit of this part has done, on which a later edit rests.
#[derive(Clone, Copy, Debug, PartialEq, Eq)]
pub enum Deed {
    /// The page was taken, from this page inventory page.
    Taken { page: u32, inventory: u32 },
}

impl Deed {
    /// Whether it is the taking of the page.
    pub fn takes(&self, page: u32) -> bool
        ensures { result ≡ takes page self.now }
    {
        match *self {
            Deed::Taken {
                page: taken,
                inventory: _,
            } => taken == page,
        }
    }

    /// The page under whose pin it stands.
    pub fn support(&self) -> u32
        ensures { result ≡ support_of_deed self.now }
    {
        match *self {
            Deed::Taken { page: _, inventory } => inventory,
        }
    }
}
