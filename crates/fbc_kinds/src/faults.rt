//! The errors of reading and of changing a page.

use crate::rules::Rule;
use std::alloc::AllocError;
use thiserror::Error;

/// Why a page was not read.
#[derive(Debug, Drop, Error)]
pub enum PageFault {
    /// The bytes spell no page: the first rule that they break.
    #[error("the page is damaged")]
    Damaged { rule: Rule },
    #[error("out of memory")]
    Memory,
}

impl From<Rule> for PageFault {
    ghost use Rattle.std.specs.Prelude.{◌≡◌};
    ghost use Rattle.fbc_kinds.specs.declared.faults.PageFault.TheVariants.{Damaged};

    ghost from_gives = { λ rule fault. fault ≡ Damaged rule };

    fn from(rule: Rule) -> PageFault {
        PageFault::Damaged { rule }
    }
}

impl From<AllocError> for PageFault {
    ghost use Rattle.std.specs.Prelude.{◌≡◌};
    ghost use Rattle.fbc_kinds.specs.declared.faults.PageFault.TheVariants.{Memory};

    ghost from_gives = { λ _ fault. fault ≡ Memory };

    fn from(_fault: AllocError) -> PageFault {
        PageFault::Memory
    }
}

/// Why an edit was not made.
#[derive(Debug, Drop, Error)]
pub enum ApplyFault {
    /// The edit does not fit the page.
    #[error("the edit does not fit the page")]
    Unfit,
    #[error("out of memory")]
    Memory,
}

impl From<AllocError> for ApplyFault {
    ghost use Rattle.std.specs.Prelude.{◌≡◌};
    ghost use Rattle.fbc_kinds.specs.declared.faults.ApplyFault.TheVariants.{Memory};

    ghost from_gives = { λ _ fault. fault ≡ Memory };

    fn from(_fault: AllocError) -> ApplyFault {
        ApplyFault::Memory
    }
}
