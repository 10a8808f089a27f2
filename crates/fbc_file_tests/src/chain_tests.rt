//! Chains over the data pages of a file, one case of a chain in each.

use fbc_links::follow;
use fbc_outside::MemoryDevice;
use fbc_reach::{Naming, ReadFault, Role, Tally};
use fbc_samples::{LINKED, file_of, shape};
use std::alloc::{AllocError, Global};

/// The data pages of that file, by page, relation and sequence.
const DATA_PAGES: &[(u32, u8, u32)] = &[
    (4, 0, 0),
    (5, 0, 1),
    (6, 0, 2),
    (8, 0, 3),
    (9, 0, 4),
    (7, 1, 0),
];

/// Of each page, whether a chain of it has a fault, and whether a row of it lies below a fault.
const PAGES: &[(u32, bool, bool)] = &[
    (4, false, false),
    (5, true, false),
    (6, false, true),
    (7, true, false),
    (8, true, false),
    (9, true, false),
];

/// Of each cell, whether a chain links it.
const CELLS: &[(u32, u16, bool)] = &[
    (4, 0, false),
    (4, 1, true),
    (6, 1, true),
    (8, 1, false),
    (9, 1, false),
    (10, 0, false),
];

/// The data pages with their roles.
fn namings(alloc: Global) -> Result<Vec<Naming>, AllocError> {
    let mut found = Vec::new(alloc);
    for (page, relation, sequence) in DATA_PAGES {
        found.push(Naming {
            page: *page,
            role: Role::Data {
                relation: *relation,
                sequence: *sequence,
            },
        })?;
    }
    Ok(found)
}

#[test]
fn chains_are_followed_along_good_links(rt: HostRuntime) -> Result<(), ReadFault> {
    let bytes = file_of(rt.alloc(), 10240, LINKED)?;
    let mut device = MemoryDevice::new(rt.alloc(), bytes, 10240, Vec::new(rt.alloc()))?;
    let Some(shape) = shape() else {
        panic!(rt; "the file is recognised");
    };
    let tip = Naming {
        page: 2,
        role: Role::Tip { sequence: 0 },
    };
    let found = namings(rt.alloc())?;
    let mut tally = Tally::new(rt.alloc(), 5);
    tally.note(rt.alloc(), &mut device, &shape, tip)?;
    tally.note_all(rt.alloc(), &mut device, &shape, &found)?;
    let chains = follow(rt.alloc(), &tally, shape.size, &[2], &found)?;
    for (page, fault, below) in PAGES {
        assert_eq!(rt;
            (chains.has_fault(*page), chains.has_below(*page)),
            (*fault, *below),
            "{page}"
        );
    }
    for (page, cell, linked) in CELLS {
        assert_eq!(rt; chains.is_linked(*page, *cell), *linked, "{page} {cell}");
    }
    Ok(())
}
