//! The smallest new file byte for byte, and what stands after a write that failed.

ghost use Rattle.std.specs.Prelude.{◌≡◌, ◌≤◌, length, IfOk};
ghost use Rattle.fbc_kinds.specs.Limits.{IsPageSize};

use fbc_files::{CreateFault, NewRelation, are_new_relations, create_file};
use fbc_kinds::{Name, Rule};
use fbc_outside::{CallKind, Device, Fail as Failing, MemoryDevice};
use fbc_pages::recognise;
use fbc_samples::{FRESH, lay};
use std::alloc::{AllocError, Global};
use std::process::Abort;
use std::test::Fail;

/// How far the device of the tests reaches, in bytes.
const REACH: u64 = 262_144;

/// The bytes of the smallest page.
const PAGE: usize = 1024;

/// A file of so many bytes with the parts of the fresh file that begin in it, from a place on.
fn file(alloc: Global, size: usize, from: usize) -> Result<Vec<u8>, AllocError> {
    let mut bytes = vec![in alloc; 0; size]?;
    for (at, part) in FRESH {
        if from <= *at {
            lay(*at, part, &mut bytes);
        }
    }
    Ok(bytes)
}

/// An empty device.
fn device(alloc: Global, fails: &[Failing]) -> Result<MemoryDevice, AllocError>
    ensures { IfOk result (λ d. ⟦<MemoryDevice as Device>⟧.reach d ≡ 262144) }
{
    MemoryDevice::new(
        alloc,
        Vec::new(alloc),
        REACH,
        Vec::from_slice(alloc, fails)?,
    )
}

fn relation(name: &[u8], longest: u8) -> NewRelation
    requires { length name.now ≤ 15 }
{
    NewRelation {
        name: Name::new(name),
        length: longest,
    }
}

/// Makes a file over a device of which these calls fail.
fn create(
    rt: &impl Abort,
    device: &mut MemoryDevice,
    alloc: Global,
    size: u32,
    relations: &[NewRelation],
) -> Result<u32, CreateFault>
    requires size { IsPageSize size }
    requires reach { ⟦<MemoryDevice as Device>⟧.reach device.old ≡ 262144 }
{
    assert!(*rt; are_new_relations(relations));
    create_file(alloc, device, size, relations)
}

/// What is recognised in the bytes of a device: the rule that is broken first, or how many relations
/// there are.
fn seen(rt: &impl Abort, bytes: &[u8]) -> Result<u8, Rule> {
    let length = bytes.len() as u64;
    assert!(*rt; length <= REACH);
    let first = &bytes[..bytes.len().min(PAGE)];
    let shape = recognise(first, length, REACH)?;
    Ok(shape.count)
}

#[test]
fn the_smallest_file(rt: HostRuntime) -> Result<(), Fail> {
    let alloc = rt.alloc();
    let mut store = device(alloc, &[])?;
    let made = create(&rt, &mut store, alloc, 1024, &[relation(b"t", 10)]);
    assert_eq!(rt; made, Ok(4));
    assert_eq!(rt; store.bytes(), file(alloc, 4096, 0)?.as_slice());
    assert_eq!(rt; store.writes(), 4);
    Ok(())
}

/// The write that fails, whether it lands, the bytes that stand after it and what they show.
const FAILED_WRITES: &[(u64, bool, usize, Result<u8, Rule>)] = &[
    (1, false, 0, Err(Rule::Short)),
    (1, true, 2048, Err(Rule::Kind)),
    (2, false, 2048, Err(Rule::Kind)),
    (2, true, 3072, Err(Rule::Kind)),
    (3, false, 3072, Err(Rule::Kind)),
    (3, true, 4096, Err(Rule::Kind)),
    (4, false, 4096, Err(Rule::Kind)),
    (4, true, 4096, Ok(1)),
];

#[test]
fn a_failed_write_leaves_the_first_of_the_pages(rt: HostRuntime) -> Result<(), Fail> {
    let alloc = rt.alloc();
    for (number, landed, size, shown) in FAILED_WRITES {
        let kind = CallKind::Write;
        let fails = [Failing {
            kind,
            number: *number,
            landed: *landed,
        }];
        let mut store = device(alloc, &fails)?;
        let made = create(&rt, &mut store, alloc, 1024, &[relation(b"t", 10)]);
        assert_eq!(rt; made, Err(CreateFault::Device), "write {number}");
        let from = if shown.is_ok() { 0 } else { PAGE };
        assert_eq!(rt;
            store.bytes(),
            file(alloc, *size, from)?.as_slice(),
            "write {number}"
        );
        assert_eq!(rt; store.writes(), *number, "write {number}");
        assert_eq!(rt; seen(&rt, store.bytes()), *shown, "write {number}");
    }
    Ok(())
}
