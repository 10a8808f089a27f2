//! Why an answer was not taken.

use fbc_kinds::Rule;
use std::alloc::AllocError;
use thiserror::Error;

/// Why an answer was not taken.
#[derive(Debug, Drop, Error)]
pub enum CacheFault {
    /// The bytes of the page spell no page: the first rule that they break.
    #[error("the page is damaged")]
    Damaged { page: u32, rule: Rule },
    #[error("out of memory")]
    Memory,
}

impl From<AllocError> for CacheFault {
    ghost use Rattle.std.specs.Prelude.{◌≡◌};
    ghost use Rattle.fbc_cache.specs.declared.faults.CacheFault.TheVariants.{Memory};

    ghost from_gives = { λ _ fault. fault ≡ Memory };

    fn from(_fault: AllocError) -> CacheFault {
        CacheFault::Memory
    }
}
