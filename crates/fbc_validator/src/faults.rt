//! Why a file was not checked.

use fbc_kinds::Rule;
use fbc_reach::ReadFault;
use std::alloc::AllocError;
use thiserror::Error;

/// Why a file was not checked.
#[derive(Debug, Drop, Error)]
pub enum ValidateFault {
    /// The file is none of this store's: the first rule that it breaks.
    #[error("the file is not one of this store's")]
    NotOurs(Rule),
    /// A call of the device was answered Failed.
    #[error("the device failed")]
    DeviceFault,
    #[error("out of memory")]
    Memory,
}

impl From<ReadFault> for ValidateFault {
    ghost use Rattle.std.specs.Prelude.{◌≡◌, ◌⊎◌};
    ghost use Rattle.fbc_reach.specs.declared.faults.ReadFault.TheVariants as read;
    ghost use Rattle.fbc_validator.specs.declared.faults.ValidateFault.TheVariants.{DeviceFault, Memory};

    ghost from_gives = { λ read_fault fault.
        ((read_fault ≡ read.DeviceFault) × (fault ≡ DeviceFault)) ⊎ ((read_fault ≡ read.Memory) × (fault ≡ Memory)) };

    fn from(fault: ReadFault) -> ValidateFault {
        match fault {
            ReadFault::DeviceFault => ValidateFault::DeviceFault,
            ReadFault::Memory => ValidateFault::Memory,
        }
    }
}

impl From<AllocError> for ValidateFault {
    ghost use Rattle.std.specs.Prelude.{◌≡◌};
    ghost use Rattle.fbc_validator.specs.declared.faults.ValidateFault.TheVariants.{Memory};

    ghost from_gives = { λ _ fault. fault ≡ Memory };

    fn from(_fault: AllocError) -> ValidateFault {
        ValidateFault::Memory
    }
}
