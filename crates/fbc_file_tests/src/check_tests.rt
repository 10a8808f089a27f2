//! The calls that the check of a file makes of its device.

ghost use Rattle.std.specs.Prelude.{◌≡◌, IfOk};

use fbc_outside::{CallKind, Device, Fail, MemoryDevice};
use fbc_samples::{TWO_RELATIONS, file_of};
use fbc_validator::{ValidateFault, validate};
use std::alloc::{AllocError, Global};

/// A device with a file of two relations in seven pages, of which one call fails.
fn device(alloc: Global, fail: Fail) -> Result<MemoryDevice, AllocError>
    ensures { IfOk result (λ d. ⟦<MemoryDevice as Device>⟧.reach d ≡ 65536) }
{
    let bytes = file_of(alloc, 7168, TWO_RELATIONS)?;
    MemoryDevice::new(alloc, bytes, 65_536, vec![in alloc; fail]?)
}

/// The calls that a check makes: the length, one read for the opening, and one of each page.
const CALLS: &[(CallKind, u64)] = &[
    (CallKind::Length, 1),
    (CallKind::Read, 1),
    (CallKind::Read, 2),
    (CallKind::Read, 3),
    (CallKind::Read, 4),
    (CallKind::Read, 5),
    (CallKind::Read, 6),
    (CallKind::Read, 7),
    (CallKind::Read, 8),
];

#[test]
fn each_call_that_fails_is_a_fault_of_the_device(rt: HostRuntime) -> Result<(), AllocError> {
    for (kind, number) in CALLS {
        let fail = Fail {
            kind: *kind,
            number: *number,
            landed: false,
        };
        let mut device = device(rt.alloc(), fail)?;
        let found = validate(rt.alloc(), &mut device);
        assert!(rt;
            matches!(found, Err(ValidateFault::DeviceFault)),
            "{number}"
        );
    }
    Ok(())
}

#[test]
fn each_page_is_read_once_behind_the_opening(rt: HostRuntime) -> Result<(), ValidateFault> {
    let ninth = Fail {
        kind: CallKind::Read,
        number: 9,
        landed: false,
    };
    let mut device = device(rt.alloc(), ninth)?;
    let found = validate(rt.alloc(), &mut device)?;
    assert!(rt; found.damages.items().is_empty());
    Ok(())
}
