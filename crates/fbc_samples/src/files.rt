//! The bytes of files, as parts. All other bytes are zeros.

use crate::parts::Part;

/// A file of one relation `t`, with values of at most 10 bytes, and no row, in four pages of 1,024
/// bytes: header, page inventory, transaction inventory, pointer page.
pub const FRESH: &[Part] = &[
    (0, &[1, 1]),
    (16, &[0x46, 0x42, 0x43, 0x50, 0x41, 0x47, 0x45, 0x53]),
    (24, &[0, 4, 0, 0]),
    (28, &[1, 0, 0, 0]),
    (32, &[1, 0, 0, 0]),
    (36, &[1, 0, 1, 0, 1, 0]),
    (48, &[1, 0x74]),
    (64, &[0x0a, 0, 1, 0, 3, 0, 0, 0]),
    (336, &[2, 0, 0, 0]),
    (1024, &[2, 1, 0, 0, 1, 0, 0, 0]),
    (1040, &[0x0f]),
    (2048, &[3, 1, 0, 0, 2, 0, 0, 0]),
    (3072, &[4, 1, 0, 0, 3, 0, 0, 0]),
];

/// A file of one relation and one row in five pages.
pub const ONE_ROW: &[Part] = &[
    (0, &[1, 1]),
    (16, &[0x46, 0x42, 0x43, 0x50, 0x41, 0x47, 0x45, 0x53]),
    (24, &[0, 4, 0, 0, 1, 0, 0, 0, 2, 0, 0, 0, 1, 0, 1, 0, 1]),
    (48, &[1, 0x74]),
    (64, &[0x0a, 0, 1, 0, 3]),
    (336, &[2]),
    (1024, &[2, 1, 0, 0, 1]),
    (1040, &[0x1f]),
    (2048, &[3, 1, 0, 0, 2]),
    (2064, &[0x0c]),
    (3072, &[4, 1, 0, 0, 3]),
    (3088, &[4]),
    (4096, &[5, 1, 0, 0, 4]),
    (4112, &[1, 1, 0, 0, 1, 0, 0, 0, 0, 0, 0, 0, 0x78]),
];

/// A file of the relations `t` and `u` in seven pages of 1,024 bytes: header, page inventory,
/// transaction inventory, the two pointer pages, the two data pages. A cell has 22 bytes: flag,
/// length of the value, back cell, number, back page, value. Cell 0 of page 5 is a version of number
/// 2 over the one of number 1 in cell 1; both are committed.
pub const TWO_RELATIONS: &[Part] = &[
    (0, &[1, 1]),
    (16, &[0x46, 0x42, 0x43, 0x50, 0x41, 0x47, 0x45, 0x53]),
    (24, &[0, 4, 0, 0, 1, 0, 0, 0, 3, 0, 0, 0, 2, 0, 1, 0, 1]),
    (48, &[1, 0x74]),
    (64, &[0x0a, 0, 1, 0, 3]),
    (84, &[1, 0x75]),
    (100, &[0x0a, 0, 1, 0, 4]),
    (336, &[2]),
    (1024, &[2, 1, 0, 0, 1]),
    (1040, &[0x7f]),
    (2048, &[3, 1, 0, 0, 2]),
    (2064, &[0x3c]),
    (3072, &[4, 1, 0, 0, 3]),
    (3088, &[5]),
    (4096, &[4, 1, 1, 0, 4]),
    (4112, &[6]),
    (5120, &[5, 1, 0, 0, 5]),
    (5136, &[1, 1, 1, 0, 2, 0, 0, 0, 5, 0, 0, 0, 0x79]),
    (5158, &[3, 1, 0, 0, 1, 0, 0, 0, 0, 0, 0, 0, 0x78]),
    (6144, &[5, 1, 1, 0, 6]),
    (6160, &[1, 1, 0, 0, 1, 0, 0, 0, 0, 0, 0, 0, 0x7a]),
];

/// A file of one relation in six pages, after an update whose changes of page 4 were never written:
/// the back version of row 0 stands in cell 1 of page 5, and nothing names it.
pub const UNFINISHED_UPDATE: &[Part] = &[
    (0, &[1, 1]),
    (16, &[0x46, 0x42, 0x43, 0x50, 0x41, 0x47, 0x45, 0x53]),
    (24, &[0, 4, 0, 0, 1, 0, 0, 0, 3, 0, 0, 0, 1, 0, 1, 0, 1]),
    (48, &[1, 0x74]),
    (64, &[0xc8, 0, 1, 0, 3]),
    (336, &[2]),
    (1024, &[2, 1, 0, 0, 1]),
    (1040, &[0x3f]),
    (2048, &[3, 1, 0, 0, 2]),
    (2064, &[0x0c]),
    (3072, &[4, 1, 0, 0, 3]),
    (3088, &[4, 0, 0, 0, 5]),
    (4096, &[5, 1, 0, 0, 4]),
    (4112, &[1, 2, 0, 0, 1, 0, 0, 0, 0, 0, 0, 0, 0x72, 0x30]),
    (4324, &[1, 2, 0, 0, 1, 0, 0, 0, 0, 0, 0, 0, 0x72, 0x31]),
    (4536, &[1, 2, 0, 0, 1, 0, 0, 0, 0, 0, 0, 0, 0x72, 0x32]),
    (4748, &[1, 2, 0, 0, 1, 0, 0, 0, 0, 0, 0, 0, 0x72, 0x33]),
    (5120, &[5, 1, 0, 0, 5, 0, 0, 0, 1]),
    (5136, &[1, 2, 0, 0, 1, 0, 0, 0, 0, 0, 0, 0, 0x72, 0x34]),
    (5348, &[3, 2, 0, 0, 1, 0, 0, 0, 0, 0, 0, 0, 0x72, 0x30]),
];

/// A file of one relation and no row in four pages of 2,048 bytes, whose header has a byte where it
/// is to have none, past those by which it is recognised.
pub const LATE_FAULT: &[Part] = &[
    (0, &[1, 1]),
    (16, &[0x46, 0x42, 0x43, 0x50, 0x41, 0x47, 0x45, 0x53]),
    (24, &[0, 8, 0, 0, 1, 0, 0, 0, 1, 0, 0, 0, 1, 0, 1, 0, 1]),
    (48, &[1, 0x74]),
    (64, &[0x0a, 0, 1, 0, 3]),
    (336, &[2]),
    (1500, &[1]),
    (2048, &[2, 1, 0, 0, 1]),
    (2064, &[0x0f]),
    (4096, &[3, 1, 0, 0, 2]),
    (6144, &[4, 1, 0, 0, 3]),
];

/// A file in ten pages of 1,024 bytes, whose data pages 4 to 9 have one case of a chain each. A cell
/// has 22 bytes: flag, length of the value, back cell, number, back page, value. Of the numbers 1 to
/// 4 all but 2 are committed.
pub const LINKED: &[Part] = &[
    (2048, &[3, 1, 0, 0, 2]),
    (2064, &[0xcc, 0x03]),
    // A chain of two.
    (4096, &[5, 1, 0, 0, 4]),
    (4112, &[1, 1, 1, 0, 3, 0, 0, 0, 4, 0, 0, 0, 0x78]),
    (4134, &[3, 1, 0, 0, 1, 0, 0, 0, 0, 0, 0, 0, 0x78]),
    // A second version that names the same back version.
    (5120, &[5, 1, 0, 0, 5]),
    (5136, &[1, 1, 1, 0, 4, 0, 0, 0, 4, 0, 0, 0, 0x78]),
    // A back version that is not committed.
    (6144, &[5, 1, 0, 0, 6]),
    (6160, &[1, 1, 1, 0, 3, 0, 0, 0, 6, 0, 0, 0, 0x78]),
    (6182, &[3, 1, 0, 0, 2, 0, 0, 0, 0, 0, 0, 0, 0x78]),
    // A page of another relation, which names a back value of the first one.
    (7168, &[5, 1, 0, 0, 7]),
    (7184, &[1, 1, 1, 0, 3, 0, 0, 0, 8, 0, 0, 0, 0x78]),
    // A back version in a page that nothing names.
    (8192, &[5, 1, 0, 0, 8]),
    (8208, &[1, 1, 0, 0, 3, 0, 0, 0, 10, 0, 0, 0, 0x78]),
    (8230, &[3, 1, 0, 0, 1, 0, 0, 0, 0, 0, 0, 0, 0x78]),
    // A back version of the same number.
    (9216, &[5, 1, 0, 0, 9]),
    (9232, &[1, 1, 1, 0, 1, 0, 0, 0, 9, 0, 0, 0, 0x78]),
    (9254, &[3, 1, 0, 0, 1, 0, 0, 0, 0, 0, 0, 0, 0x78]),
];
