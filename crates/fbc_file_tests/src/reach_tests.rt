//! The pages that a file reaches: how each is read, and in which roles it is named.

ghost use Rattle.std.specs.Prelude.{◌≡◌, IfOk};
ghost use Rattle.fbc_kinds.specs.HeaderSpelling.{IsFileShape};

use fbc_kinds::{PageFault, Rule, Shape};
use fbc_outside::{CallKind, Device, Fail, MemoryDevice};
use fbc_pages::decode_header;
use fbc_reach::{
    Naming, PageRead, ReadFault, Role, Tally, Visited, content_shown, read_bytes, walk,
};
use fbc_samples::{ONE_ROW, Part, file_of, lay_all, shape};
use std::alloc::{AllocError, Global};

/// A device with a file of that length, which has the parts and then the changes, and of which these
/// calls fail.
fn device(
    alloc: Global,
    length: usize,
    changes: &[Part],
    fails: &[Fail],
) -> Result<MemoryDevice, AllocError> {
    let mut bytes = file_of(alloc, length.min(10_240), ONE_ROW)?;
    lay_all(changes, &mut bytes);
    MemoryDevice::new(alloc, bytes, 10_240, Vec::from_slice(alloc, fails)?)
}

/// A state of the transaction inventory that none may have.
const LIMBO: &[Part] = &[(2064, &[0x04])];

/// Reads the page of a number, and what it shows.
fn read_page<D: Device>(
    alloc: Global,
    device: &mut D,
    shape: &Shape,
    number: u32,
) -> Result<PageRead, ReadFault>
    requires { IsFileShape shape.now }
{
    let bytes = read_bytes(alloc, device, shape.size, number)?;
    Ok(content_shown(alloc, shape, number, &bytes)?)
}

/// Of each page, the number of its kind and the rule that it breaks.
const KINDS: &[(u32, u8, Option<Rule>)] = &[
    (0, 1, None),
    (1, 2, None),
    (2, 3, Some(Rule::State)),
    (3, 4, None),
    (4, 5, None),
    (5, 0, None),
    (u32::MAX, 0, None),
];

#[test]
fn pages_are_read_by_their_own_kind(rt: HostRuntime) -> Result<(), ReadFault> {
    let mut device = device(rt.alloc(), 5120, LIMBO, &[])?;
    let Some(shape) = shape() else {
        panic!(rt; "the file is recognised");
    };
    for (number, kind, rule) in KINDS {
        let read = read_page(rt.alloc(), &mut device, &shape, *number)?;
        assert_eq!(rt; (read.kind, read.rule), (*kind, *rule), "{number}");
    }
    let mut file = file_of(rt.alloc(), 5120, ONE_ROW)?;
    lay_all(LIMBO, &mut file);
    assert!(rt; device.bytes() == file.as_slice());
    Ok(())
}

#[test]
fn a_read_that_fails_is_a_fault_of_the_device(rt: HostRuntime) -> Result<(), AllocError> {
    let fail = Fail {
        kind: CallKind::Read,
        number: 1,
        landed: false,
    };
    let mut device = device(rt.alloc(), 5120, &[], &[fail])?;
    let Some(shape) = shape() else {
        panic!(rt; "the file is recognised");
    };
    let read = read_page(rt.alloc(), &mut device, &shape, 1);
    assert!(rt; matches!(read, Err(ReadFault::DeviceFault)));
    Ok(())
}

/// What a walk over such a file gives; none where its header is damaged.
fn walked<D: Device>(
    alloc: Global,
    device: &mut D,
    shape: &Shape,
) -> Result<Option<Visited>, ReadFault>
    requires { IsFileShape shape.now }
{
    let bytes = read_bytes(alloc, device, shape.size, 0)?;
    match decode_header(alloc, shape.size, &bytes) {
        Ok(header) => {
            let first = content_shown(alloc, shape, 0, &bytes)?;
            Ok(Some(walk(alloc, device, shape, &header, first)?))
        }
        Err(PageFault::Damaged { rule: _ }) => Ok(None),
        Err(PageFault::Memory) => Err(ReadFault::Memory),
    }
}

/// The pages of the file, each in its role.
const ROLES: &[(u32, Role)] = &[
    (0, Role::Header),
    (1, Role::Inventory { sequence: 0 }),
    (2, Role::Tip { sequence: 0 }),
    (
        3,
        Role::Pointer {
            relation: 0,
            sequence: 0,
        },
    ),
    (
        4,
        Role::Data {
            relation: 0,
            sequence: 0,
        },
    ),
];

#[test]
fn a_file_names_its_pages_in_order(rt: HostRuntime) -> Result<(), ReadFault> {
    let mut device = device(rt.alloc(), 5120, &[], &[])?;
    let Some(shape) = shape() else {
        panic!(rt; "the file is recognised");
    };
    let Some(visited) = walked(rt.alloc(), &mut device, &shape)? else {
        panic!(rt; "the header is read");
    };
    assert_eq!(rt; visited.tally.len(), 5);
    for (index, (page, role)) in ROLES.iter().enumerate() {
        let Some(named) = visited.tally.get(*page) else {
            panic!(rt; "page {page} is named");
        };
        assert_eq!(rt; visited.tally.index_of(*page), Some(index), "{page}");
        assert_eq!(rt; named.first, *role, "{page}");
    }
    Ok(())
}

/// Three pointer pages of one relation, the last of them with a data page in its second and in its
/// fourth slot.
const THREE_POINTERS: &[Part] = &[
    (66, &[3, 0, 3, 0, 0, 0, 5, 0, 0, 0, 6]),
    (1040, &[0xff]),
    (5120, &[4, 1, 0, 0, 5, 0, 0, 0, 1]),
    (6144, &[4, 1, 0, 0, 6, 0, 0, 0, 2]),
    (6160, &[0, 0, 0, 0, 7, 0, 0, 0, 0, 0, 0, 0, 7]),
    (7168, &[5, 1, 0, 0, 7]),
];

#[test]
fn slots_name_the_data_pages_of_their_sequence(rt: HostRuntime) -> Result<(), ReadFault> {
    let mut device = device(rt.alloc(), 8192, THREE_POINTERS, &[])?;
    let Some(shape) = shape() else {
        panic!(rt; "the file is recognised");
    };
    let Some(visited) = walked(rt.alloc(), &mut device, &shape)? else {
        panic!(rt; "the header is read");
    };
    let expected = [(4, 0), (7, 505), (7, 507)].map(|(page, sequence)| Naming {
        page,
        role: Role::Data {
            relation: 0,
            sequence,
        },
    });
    assert!(rt; visited.found.as_slice() == expected.as_slice());
    Ok(())
}

#[test]
fn a_page_that_is_named_again_is_judged_and_not_read(rt: HostRuntime) -> Result<(), ReadFault> {
    let fail = Fail {
        kind: CallKind::Read,
        number: 2,
        landed: false,
    };
    let mut device = device(rt.alloc(), 5120, LIMBO, &[fail])?;
    let Some(shape) = shape() else {
        panic!(rt; "the file is recognised");
    };
    let pointer = Role::Pointer {
        relation: 0,
        sequence: 0,
    };
    let roles = [
        Role::Tip { sequence: 0 },
        pointer,
        Role::Pointer {
            relation: 0,
            sequence: 1,
        },
    ];
    let mut tally = Tally::new(rt.alloc(), 1);
    for role in roles {
        tally.note(rt.alloc(), &mut device, &shape, Naming { page: 3, role })?;
    }
    let Some(page) = tally.get(3) else {
        panic!(rt; "the page was named");
    };
    assert_eq!(rt; (page.first, page.walked), (roles[0], Some(pointer)));
    assert!(rt; page.other_kind && page.other_role && page.other_sequence);
    assert!(rt; !page.other_relation && !page.late && tally.get(4).is_none());
    Ok(())
}
