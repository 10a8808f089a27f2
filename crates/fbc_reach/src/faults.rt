//! Why pages could not be read.

use fbc_outside::Failed;
use std::alloc::AllocError;
use thiserror::Error;

/// Why pages could not be read.
#[derive(Debug, Drop, Error)]
pub enum ReadFault {
    /// A call of the device was answered Failed.
    #[error("the device failed")]
    DeviceFault,
    #[error("out of memory")]
    Memory,
}

impl From<Failed> for ReadFault {
    ghost use Rattle.std.specs.Prelude.{◌≡◌};
    ghost use Rattle.fbc_reach.specs.declared.faults.ReadFault.TheVariants.{DeviceFault};

    ghost from_gives = { λ _ fault. fault ≡ DeviceFault };

    fn from(_failed: Failed) -> ReadFault {
        ReadFault::DeviceFault
    }
}

impl From<AllocError> for ReadFault {
    ghost use Rattle.std.specs.Prelude.{◌≡◌};
    ghost use Rattle.fbc_reach.specs.declared.faults.ReadFault.TheVariants.{Memory};

    ghost from_gives = { λ _ fault. fault ≡ Memory };

    fn from(_fault: AllocError) -> ReadFault {
        ReadFault::Memory
    }
}
