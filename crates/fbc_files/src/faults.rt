//! Why a file was not made, and why one was not opened.

use fbc_kinds::Rule;
use fbc_outside::Failed;
use std::alloc::AllocError;
use thiserror::Error;

/// Why a file was not made.
#[derive(Clone, Copy, Debug, PartialEq, Eq, Error)]
pub enum CreateFault {
    /// A write was answered Failed.
    #[error("the device failed")]
    Device,
    #[error("out of memory")]
    Memory,
}

/// Why a file was not opened.
#[derive(Clone, Copy, Debug, PartialEq, Eq, Error)]
pub enum OpenFault {
    /// The file is none of this store's: the first rule that it breaks.
    #[error("the file is not one of this store's")]
    NotOurs(Rule),
    /// A call of the device was answered Failed.
    #[error("the device failed")]
    DeviceFault,
}

impl From<Failed> for CreateFault {
    ghost use Rattle.std.specs.Prelude.{◌≡◌};
    ghost use Rattle.fbc_files.specs.declared.faults.CreateFault.TheVariants.{Device};

    ghost from_gives = { λ _ fault. fault ≡ Device };

    fn from(_: Failed) -> CreateFault {
        CreateFault::Device
    }
}

impl From<AllocError> for CreateFault {
    ghost use Rattle.std.specs.Prelude.{◌≡◌};
    ghost use Rattle.fbc_files.specs.declared.faults.CreateFault.TheVariants.{Memory};

    ghost from_gives = { λ _ fault. fault ≡ Memory };

    fn from(_: AllocError) -> CreateFault {
        CreateFault::Memory
    }
}
