//! Plays over files with full pages, with two relations, and with a page that is not what its slot says: their transcripts, and the files behind them, given as parts between which all bytes are zeros.

use crate::playing::play_over;
use fbc_samples::{Part, file_of};
use std::test::Fail;

const BEFORE_TWO_INSERTS_OF_PAGES_BESIDE_EACH_OTHER: &[Part] = &[
    (0, &[1, 1]),
    (
        16,
        &[
            0x46, 0x42, 0x43, 0x50, 0x41, 0x47, 0x45, 0x53, 0, 4, 0, 0, 1, 0, 0, 0, 1, 0, 0, 0, 1,
            0, 1, 0, 1,
        ],
    ),
    (48, &[1, 0x74]),
    (64, &[0xc8, 0, 1, 0, 3]),
    (336, &[2]),
    (1024, &[2, 1, 0, 0, 1]),
    (1040, &[0x0f]),
    (2048, &[3, 1, 0, 0, 2]),
    (3072, &[4, 1, 0, 0, 3]),
];

const AFTER_TWO_INSERTS_OF_PAGES_BESIDE_EACH_OTHER: &[Part] = &[
    (0, &[1, 1]),
    (
        16,
        &[
            0x46, 0x42, 0x43, 0x50, 0x41, 0x47, 0x45, 0x53, 0, 4, 0, 0, 1, 0, 0, 0, 4, 0, 0, 0, 1,
            0, 1, 0, 1,
        ],
    ),
    (48, &[1, 0x74]),
    (64, &[0xc8, 0, 1, 0, 3]),
    (336, &[2]),
    (1024, &[2, 1, 0, 0, 1]),
    (1040, &[0x2f]),
    (2048, &[3, 1, 0, 0, 2]),
    (3072, &[4, 1, 0, 0, 3]),
    (3088, &[5]),
    (5120, &[5, 1, 0, 0, 5]),
    (5136, &[1, 2, 0, 0, 3]),
    (5148, &[0x78, 0x31]),
    (5348, &[1, 2, 0, 0, 1]),
    (5360, &[0x78, 0x31]),
];

const BEFORE_PAGES_OF_TWO_RELATIONS: &[Part] = &[
    (0, &[1, 1]),
    (
        16,
        &[
            0x46, 0x42, 0x43, 0x50, 0x41, 0x47, 0x45, 0x53, 0, 4, 0, 0, 1, 0, 0, 0, 1, 0, 0, 0, 2,
            0, 1, 0, 1,
        ],
    ),
    (48, &[1, 0x74]),
    (64, &[0xc8, 0, 1, 0, 3]),
    (84, &[1, 0x75]),
    (100, &[0xc8, 0, 1, 0, 4]),
    (336, &[2]),
    (1024, &[2, 1, 0, 0, 1]),
    (1040, &[0x1f]),
    (2048, &[3, 1, 0, 0, 2]),
    (3072, &[4, 1, 0, 0, 3]),
    (4096, &[4, 1, 1, 0, 4]),
];

const AFTER_PAGES_OF_TWO_RELATIONS: &[Part] = &[
    (0, &[1, 1]),
    (
        16,
        &[
            0x46, 0x42, 0x43, 0x50, 0x41, 0x47, 0x45, 0x53, 0, 4, 0, 0, 1, 0, 0, 0, 2, 0, 0, 0, 2,
            0, 1, 0, 1,
        ],
    ),
    (48, &[1, 0x74]),
    (64, &[0xc8, 0, 1, 0, 3]),
    (84, &[1, 0x75]),
    (100, &[0xc8, 0, 1, 0, 4]),
    (336, &[2]),
    (1024, &[2, 1, 0, 0, 1]),
    (1040, &[0xff]),
    (2048, &[3, 1, 0, 0, 2]),
    (2064, &[0x0c]),
    (3072, &[4, 1, 0, 0, 3]),
    (3088, &[5, 0, 0, 0, 6]),
    (4096, &[4, 1, 1, 0, 4]),
    (4112, &[7]),
    (5120, &[5, 1, 0, 0, 5]),
    (5136, &[1, 2, 0, 0, 1]),
    (5148, &[0x72, 0x30]),
    (5348, &[1, 2, 0, 0, 1]),
    (5360, &[0x72, 0x31]),
    (5560, &[1, 2, 0, 0, 1]),
    (5572, &[0x72, 0x32]),
    (5772, &[1, 2, 0, 0, 1]),
    (5784, &[0x72, 0x33]),
    (6144, &[5, 1, 0, 0, 6, 0, 0, 0, 1]),
    (6160, &[1, 2, 0, 0, 1]),
    (6172, &[0x72, 0x34]),
    (6372, &[1, 2, 0, 0, 1]),
    (6384, &[0x72, 0x35]),
    (6584, &[1, 2, 0, 0, 1]),
    (6596, &[0x72, 0x36]),
    (6796, &[1, 2, 0, 0, 1]),
    (6808, &[0x72, 0x37]),
    (7168, &[5, 1, 1, 0, 7]),
    (7184, &[1, 2, 0, 0, 1]),
    (7196, &[0x72, 0x30]),
    (7396, &[1, 2, 0, 0, 1]),
    (7408, &[0x72, 0x31]),
];

const BEFORE_AN_INSERT_AT_A_PAGE_OF_ANOTHER_KIND: &[Part] = &[
    (0, &[1, 1]),
    (
        16,
        &[
            0x46, 0x42, 0x43, 0x50, 0x41, 0x47, 0x45, 0x53, 0, 4, 0, 0, 1, 0, 0, 0, 2, 0, 0, 0, 2,
            0, 1, 0, 1,
        ],
    ),
    (48, &[1, 0x74]),
    (64, &[0xc8, 0, 1, 0, 3]),
    (84, &[1, 0x75]),
    (100, &[0xc8, 0, 1, 0, 4]),
    (336, &[2]),
    (1024, &[2, 1, 0, 0, 1]),
    (1040, &[0xff]),
    (2048, &[3, 1, 0, 0, 2]),
    (2064, &[0x0c]),
    (3072, &[4, 1, 0, 0, 3]),
    (3088, &[2, 0, 0, 0, 6]),
    (4096, &[4, 1, 1, 0, 4]),
    (4112, &[7]),
    (5120, &[5, 1, 0, 0, 5]),
    (5136, &[1, 2, 0, 0, 1]),
    (5148, &[0x72, 0x30]),
    (5348, &[1, 2, 0, 0, 1]),
    (5360, &[0x72, 0x31]),
    (5560, &[1, 2, 0, 0, 1]),
    (5572, &[0x72, 0x32]),
    (5772, &[1, 2, 0, 0, 1]),
    (5784, &[0x72, 0x33]),
    (6144, &[5, 1, 0, 0, 6, 0, 0, 0, 1]),
    (6160, &[1, 2, 0, 0, 1]),
    (6172, &[0x72, 0x34]),
    (6372, &[1, 2, 0, 0, 1]),
    (6384, &[0x72, 0x35]),
    (6584, &[1, 2, 0, 0, 1]),
    (6596, &[0x72, 0x36]),
    (6796, &[1, 2, 0, 0, 1]),
    (6808, &[0x72, 0x37]),
    (7168, &[5, 1, 1, 0, 7]),
    (7184, &[1, 2, 0, 0, 1]),
    (7196, &[0x72, 0x30]),
    (7396, &[1, 2, 0, 0, 1]),
    (7408, &[0x72, 0x31]),
];

const AFTER_AN_INSERT_AT_A_PAGE_OF_ANOTHER_KIND: &[Part] = &[
    (0, &[1, 1]),
    (
        16,
        &[
            0x46, 0x42, 0x43, 0x50, 0x41, 0x47, 0x45, 0x53, 0, 4, 0, 0, 1, 0, 0, 0, 3, 0, 0, 0, 2,
            0, 1, 0, 1,
        ],
    ),
    (48, &[1, 0x74]),
    (64, &[0xc8, 0, 1, 0, 3]),
    (84, &[1, 0x75]),
    (100, &[0xc8, 0, 1, 0, 4]),
    (336, &[2]),
    (1024, &[2, 1, 0, 0, 1]),
    (1040, &[0xff]),
    (2048, &[3, 1, 0, 0, 2]),
    (2064, &[0x3c]),
    (3072, &[4, 1, 0, 0, 3]),
    (3088, &[2, 0, 0, 0, 6]),
    (4096, &[4, 1, 1, 0, 4]),
    (4112, &[7]),
    (5120, &[5, 1, 0, 0, 5]),
    (5136, &[1, 2, 0, 0, 1]),
    (5148, &[0x72, 0x30]),
    (5348, &[1, 2, 0, 0, 1]),
    (5360, &[0x72, 0x31]),
    (5560, &[1, 2, 0, 0, 1]),
    (5572, &[0x72, 0x32]),
    (5772, &[1, 2, 0, 0, 1]),
    (5784, &[0x72, 0x33]),
    (6144, &[5, 1, 0, 0, 6, 0, 0, 0, 1]),
    (6160, &[1, 2, 0, 0, 1]),
    (6172, &[0x72, 0x34]),
    (6372, &[1, 2, 0, 0, 1]),
    (6384, &[0x72, 0x35]),
    (6584, &[1, 2, 0, 0, 1]),
    (6596, &[0x72, 0x36]),
    (6796, &[1, 2, 0, 0, 1]),
    (6808, &[0x72, 0x37]),
    (7168, &[5, 1, 1, 0, 7]),
    (7184, &[1, 2, 0, 0, 1]),
    (7196, &[0x72, 0x30]),
    (7396, &[1, 2, 0, 0, 1]),
    (7408, &[0x72, 0x31]),
];

const BEFORE_AN_INSERT_AT_A_PAGE_OF_ANOTHER_RELATION: &[Part] = &[
    (0, &[1, 1]),
    (
        16,
        &[
            0x46, 0x42, 0x43, 0x50, 0x41, 0x47, 0x45, 0x53, 0, 4, 0, 0, 1, 0, 0, 0, 2, 0, 0, 0, 2,
            0, 1, 0, 1,
        ],
    ),
    (48, &[1, 0x74]),
    (64, &[0xc8, 0, 1, 0, 3]),
    (84, &[1, 0x75]),
    (100, &[0xc8, 0, 1, 0, 4]),
    (336, &[2]),
    (1024, &[2, 1, 0, 0, 1]),
    (1040, &[0xff]),
    (2048, &[3, 1, 0, 0, 2]),
    (2064, &[0x0c]),
    (3072, &[4, 1, 0, 0, 3]),
    (3088, &[7, 0, 0, 0, 6]),
    (4096, &[4, 1, 1, 0, 4]),
    (4112, &[7]),
    (5120, &[5, 1, 0, 0, 5]),
    (5136, &[1, 2, 0, 0, 1]),
    (5148, &[0x72, 0x30]),
    (5348, &[1, 2, 0, 0, 1]),
    (5360, &[0x72, 0x31]),
    (5560, &[1, 2, 0, 0, 1]),
    (5572, &[0x72, 0x32]),
    (5772, &[1, 2, 0, 0, 1]),
    (5784, &[0x72, 0x33]),
    (6144, &[5, 1, 0, 0, 6, 0, 0, 0, 1]),
    (6160, &[1, 2, 0, 0, 1]),
    (6172, &[0x72, 0x34]),
    (6372, &[1, 2, 0, 0, 1]),
    (6384, &[0x72, 0x35]),
    (6584, &[1, 2, 0, 0, 1]),
    (6596, &[0x72, 0x36]),
    (6796, &[1, 2, 0, 0, 1]),
    (6808, &[0x72, 0x37]),
    (7168, &[5, 1, 1, 0, 7]),
    (7184, &[1, 2, 0, 0, 1]),
    (7196, &[0x72, 0x30]),
    (7396, &[1, 2, 0, 0, 1]),
    (7408, &[0x72, 0x31]),
];

const AFTER_AN_INSERT_AT_A_PAGE_OF_ANOTHER_RELATION: &[Part] = &[
    (0, &[1, 1]),
    (
        16,
        &[
            0x46, 0x42, 0x43, 0x50, 0x41, 0x47, 0x45, 0x53, 0, 4, 0, 0, 1, 0, 0, 0, 3, 0, 0, 0, 2,
            0, 1, 0, 1,
        ],
    ),
    (48, &[1, 0x74]),
    (64, &[0xc8, 0, 1, 0, 3]),
    (84, &[1, 0x75]),
    (100, &[0xc8, 0, 1, 0, 4]),
    (336, &[2]),
    (1024, &[2, 1, 0, 0, 1]),
    (1040, &[0xff]),
    (2048, &[3, 1, 0, 0, 2]),
    (2064, &[0x3c]),
    (3072, &[4, 1, 0, 0, 3]),
    (3088, &[7, 0, 0, 0, 6]),
    (4096, &[4, 1, 1, 0, 4]),
    (4112, &[7]),
    (5120, &[5, 1, 0, 0, 5]),
    (5136, &[1, 2, 0, 0, 1]),
    (5148, &[0x72, 0x30]),
    (5348, &[1, 2, 0, 0, 1]),
    (5360, &[0x72, 0x31]),
    (5560, &[1, 2, 0, 0, 1]),
    (5572, &[0x72, 0x32]),
    (5772, &[1, 2, 0, 0, 1]),
    (5784, &[0x72, 0x33]),
    (6144, &[5, 1, 0, 0, 6, 0, 0, 0, 1]),
    (6160, &[1, 2, 0, 0, 1]),
    (6172, &[0x72, 0x34]),
    (6372, &[1, 2, 0, 0, 1]),
    (6384, &[0x72, 0x35]),
    (6584, &[1, 2, 0, 0, 1]),
    (6596, &[0x72, 0x36]),
    (6796, &[1, 2, 0, 0, 1]),
    (6808, &[0x72, 0x37]),
    (7168, &[5, 1, 1, 0, 7]),
    (7184, &[1, 2, 0, 0, 1]),
    (7196, &[0x72, 0x30]),
    (7396, &[1, 2, 0, 0, 1]),
    (7408, &[0x72, 0x31]),
];

const BEFORE_AN_INSERT_AT_A_PAGE_OF_ANOTHER_SEQUENCE: &[Part] = &[
    (0, &[1, 1]),
    (
        16,
        &[
            0x46, 0x42, 0x43, 0x50, 0x41, 0x47, 0x45, 0x53, 0, 4, 0, 0, 1, 0, 0, 0, 2, 0, 0, 0, 2,
            0, 1, 0, 1,
        ],
    ),
    (48, &[1, 0x74]),
    (64, &[0xc8, 0, 1, 0, 3]),
    (84, &[1, 0x75]),
    (100, &[0xc8, 0, 1, 0, 4]),
    (336, &[2]),
    (1024, &[2, 1, 0, 0, 1]),
    (1040, &[0xff]),
    (2048, &[3, 1, 0, 0, 2]),
    (2064, &[0x0c]),
    (3072, &[4, 1, 0, 0, 3]),
    (3088, &[6, 0, 0, 0, 6]),
    (4096, &[4, 1, 1, 0, 4]),
    (4112, &[7]),
    (5120, &[5, 1, 0, 0, 5]),
    (5136, &[1, 2, 0, 0, 1]),
    (5148, &[0x72, 0x30]),
    (5348, &[1, 2, 0, 0, 1]),
    (5360, &[0x72, 0x31]),
    (5560, &[1, 2, 0, 0, 1]),
    (5572, &[0x72, 0x32]),
    (5772, &[1, 2, 0, 0, 1]),
    (5784, &[0x72, 0x33]),
    (6144, &[5, 1, 0, 0, 6, 0, 0, 0, 1]),
    (6160, &[1, 2, 0, 0, 1]),
    (6172, &[0x72, 0x34]),
    (6372, &[1, 2, 0, 0, 1]),
    (6384, &[0x72, 0x35]),
    (6584, &[1, 2, 0, 0, 1]),
    (6596, &[0x72, 0x36]),
    (6796, &[1, 2, 0, 0, 1]),
    (6808, &[0x72, 0x37]),
    (7168, &[5, 1, 1, 0, 7]),
    (7184, &[1, 2, 0, 0, 1]),
    (7196, &[0x72, 0x30]),
    (7396, &[1, 2, 0, 0, 1]),
    (7408, &[0x72, 0x31]),
];

const AFTER_AN_INSERT_AT_A_PAGE_OF_ANOTHER_SEQUENCE: &[Part] = &[
    (0, &[1, 1]),
    (
        16,
        &[
            0x46, 0x42, 0x43, 0x50, 0x41, 0x47, 0x45, 0x53, 0, 4, 0, 0, 1, 0, 0, 0, 3, 0, 0, 0, 2,
            0, 1, 0, 1,
        ],
    ),
    (48, &[1, 0x74]),
    (64, &[0xc8, 0, 1, 0, 3]),
    (84, &[1, 0x75]),
    (100, &[0xc8, 0, 1, 0, 4]),
    (336, &[2]),
    (1024, &[2, 1, 0, 0, 1]),
    (1040, &[0xff]),
    (2048, &[3, 1, 0, 0, 2]),
    (2064, &[0x3c]),
    (3072, &[4, 1, 0, 0, 3]),
    (3088, &[6, 0, 0, 0, 6]),
    (4096, &[4, 1, 1, 0, 4]),
    (4112, &[7]),
    (5120, &[5, 1, 0, 0, 5]),
    (5136, &[1, 2, 0, 0, 1]),
    (5148, &[0x72, 0x30]),
    (5348, &[1, 2, 0, 0, 1]),
    (5360, &[0x72, 0x31]),
    (5560, &[1, 2, 0, 0, 1]),
    (5572, &[0x72, 0x32]),
    (5772, &[1, 2, 0, 0, 1]),
    (5784, &[0x72, 0x33]),
    (6144, &[5, 1, 0, 0, 6, 0, 0, 0, 1]),
    (6160, &[1, 2, 0, 0, 1]),
    (6172, &[0x72, 0x34]),
    (6372, &[1, 2, 0, 0, 1]),
    (6384, &[0x72, 0x35]),
    (6584, &[1, 2, 0, 0, 1]),
    (6596, &[0x72, 0x36]),
    (6796, &[1, 2, 0, 0, 1]),
    (6808, &[0x72, 0x37]),
    (7168, &[5, 1, 1, 0, 7]),
    (7184, &[1, 2, 0, 0, 1]),
    (7196, &[0x72, 0x30]),
    (7396, &[1, 2, 0, 0, 1]),
    (7408, &[0x72, 0x31]),
];

#[test]
fn two_inserts_of_pages_beside_each_other(rt: HostRuntime) -> Result<(), Fail> {
    let transcript = play_over(
        &rt,
        rt.alloc(),
        file_of(
            rt.alloc(),
            4096,
            BEFORE_TWO_INSERTS_OF_PAGES_BESIDE_EACH_OTHER,
        )?,
        "a1 attach\na2 attach\na3 attach\na1 begin wait\na2 begin wait\na3 begin wait\npost a1 insert t x1\npost a2 insert t x1\npost a3 insert t x1\nrun\n",
        true,
        &file_of(
            rt.alloc(),
            6144,
            AFTER_TWO_INSERTS_OF_PAGES_BESIDE_EACH_OTHER,
        )?,
    )?;
    assert_eq!(rt;
        transcript.bytes(),
        "1 a1 ok\n2 a2 ok\n3 a3 ok\n  a1 grant page 0 EX\n  a1 read 0\n  a1 grant page 2 PR\n  a1 read 2\n  a1 grant transaction 1 EX\n4 a1 transaction 1\n  a1 write 0 callback a2\n  a1 lower page 0 none\n  a2 grant page 0 EX\n  a2 read 0\n  a2 grant page 2 PR\n  a2 read 2\n  a2 grant transaction 2 EX\n5 a2 transaction 2\n  a2 write 0 callback a3\n  a2 lower page 0 none\n  a3 grant page 0 EX\n  a3 read 0\n  a3 grant page 2 PR\n  a3 read 2\n  a3 grant transaction 3 EX\n6 a3 transaction 3\n  a1 grant relation 0 SW\n  a2 grant relation 0 SW\n  a3 grant relation 0 SW\n  a1 grant page 3 PR\n  a2 grant page 3 PR\n  a3 grant page 3 PR\n  a1 read 3\n  a2 read 3\n  a3 read 3\n  a1 grant page 1 EX\n  a1 read 1\n  a1 grant page 4 EX\n  a1 lower page 3 none\n  a2 lower page 3 none\n  a3 lower page 3 none\n  a1 grant page 3 EX\n  a1 lower page 1 none\n  a2 grant page 1 EX\n  a2 read 1\n  a1 read 3\n  a2 lower page 1 none\n  a3 grant page 1 EX\n  a1 lower page 4 none\n  a2 grant page 4 EX\n  a3 read 1\n  a2 lower page 4 none\n  a3 grant page 4 EX\n  a3 lower page 1 none\n  a1 grant page 1 EX\n  a1 read 1\n  a3 lower page 4 none\n  a1 grant page 4 EX\n  a1 lower page 3 none\n  a2 grant page 3 EX\n  a2 read 3\n  a1 lower page 1 none\n  a2 grant page 1 EX\n  a2 read 1\n  a1 lower page 4 none\n  a2 grant page 4 EX\n  a2 lower page 3 none\n  a3 grant page 3 EX\n  a3 read 3\n  a2 lower page 1 none\n  a3 grant page 1 EX\n  a3 read 1\n  a2 lower page 4 none\n  a3 grant page 4 EX\n  a3 lower page 3 PR\n  a1 grant page 3 PR\n  a2 grant page 3 PR\n  a1 read 3\n  a2 read 3\n  a3 lower page 3 none\n  a1 lower page 3 none\n  a2 lower page 3 none\n  a3 grant page 3 EX\n  a3 lower page 1 none\n  a1 grant page 1 EX\n  a1 read 1\n  a3 read 3\n  a1 lower page 1 none\n  a2 grant page 1 EX\n  a3 lower page 4 none\n  a1 grant page 4 EX\n  a2 read 1\n  a1 lower page 4 none\n  a2 grant page 4 EX\n  a2 lower page 1 none\n  a3 grant page 1 EX\n  a3 read 1\n  a3 grant page 5 EX\n9 a3 row 0\n  a3 write 0 callback a1\n  a3 write 1 callback a1\n  a3 write 5 callback a1\n  a3 write 3 callback a1\n  a3 lower page 3 none\n  a1 grant page 3 EX\n  a1 read 3\n  a3 lower page 5 none\n  a1 grant page 5 EX\n  a1 lower page 3 none\n  a2 grant page 3 EX\n  a2 read 3\n  a1 read 5\n  a2 lower page 3 PR\n  a1 grant page 3 PR\n  a1 read 3\n7 a1 row 1\n  a1 write 5 callback a2\n  a1 lower page 5 none\n  a2 grant page 5 EX\n  a2 read 5\n8 a2 row 2\n".as_bytes()
    );
    Ok(())
}

#[test]
fn pages_of_two_relations(rt: HostRuntime) -> Result<(), Fail> {
    let transcript = play_over(
        &rt,
        rt.alloc(),
        file_of(rt.alloc(), 5120, BEFORE_PAGES_OF_TWO_RELATIONS)?,
        "a1 attach\na1 begin wait\na1 insert t r0\na1 insert t r1\na1 insert t r2\na1 insert t r3\na1 insert t r4\na1 insert t r5\na1 insert t r6\na1 insert t r7\na1 insert u r0\na1 insert u r1\na1 commit\n",
        false,
        &file_of(rt.alloc(), 8192, AFTER_PAGES_OF_TWO_RELATIONS)?,
    )?;
    assert_eq!(rt;
        transcript.bytes(),
        "1 a1 ok\n2 a1 transaction 1\n3 a1 row 0\n4 a1 row 1\n5 a1 row 2\n6 a1 row 3\n7 a1 row 4\n8 a1 row 5\n9 a1 row 6\n10 a1 row 7\n11 a1 row 0\n12 a1 row 1\n13 a1 ok\n".as_bytes()
    );
    Ok(())
}

#[test]
fn an_insert_at_a_page_of_another_kind(rt: HostRuntime) -> Result<(), Fail> {
    let transcript = play_over(
        &rt,
        rt.alloc(),
        file_of(rt.alloc(), 8192, BEFORE_AN_INSERT_AT_A_PAGE_OF_ANOTHER_KIND)?,
        "a1 attach\na1 begin wait\na1 read t 4\na1 insert t z\na1 commit\n",
        true,
        &file_of(rt.alloc(), 8192, AFTER_AN_INSERT_AT_A_PAGE_OF_ANOTHER_KIND)?,
    )?;
    assert_eq!(rt;
        transcript.bytes(),
        "1 a1 ok\n  a1 grant page 0 EX\n  a1 read 0\n  a1 grant page 2 PR\n  a1 read 2\n  a1 grant transaction 2 EX\n2 a1 transaction 2\n  a1 grant relation 0 SR\n  a1 grant page 3 PR\n  a1 read 3\n  a1 grant page 6 PR\n  a1 read 6\n3 a1 value r4\n  a1 grant relation 0 SW\n  a1 lower page 2 none\n  a1 grant page 2 EX\n  a1 read 2\n4 a1 damaged 2 kind\n  a1 write 0 commit\n  a1 write 2 commit\n  a1 lower transaction 2 none\n  a1 lower relation 0 none\n5 a1 ok\n".as_bytes()
    );
    Ok(())
}

#[test]
fn a_read_at_a_page_of_another_kind(rt: HostRuntime) -> Result<(), Fail> {
    let transcript = play_over(
        &rt,
        rt.alloc(),
        file_of(rt.alloc(), 8192, BEFORE_AN_INSERT_AT_A_PAGE_OF_ANOTHER_KIND)?,
        "a1 attach\na1 begin wait\na1 read t 4\na1 read t 0\na1 commit\n",
        true,
        &file_of(rt.alloc(), 8192, AFTER_AN_INSERT_AT_A_PAGE_OF_ANOTHER_KIND)?,
    )?;
    assert_eq!(rt;
        transcript.bytes(),
        "1 a1 ok\n  a1 grant page 0 EX\n  a1 read 0\n  a1 grant page 2 PR\n  a1 read 2\n  a1 grant transaction 2 EX\n2 a1 transaction 2\n  a1 grant relation 0 SR\n  a1 grant page 3 PR\n  a1 read 3\n  a1 grant page 6 PR\n  a1 read 6\n3 a1 value r4\n4 a1 damaged 2 kind\n  a1 write 0 commit\n  a1 lower page 2 none\n  a1 grant page 2 EX\n  a1 read 2\n  a1 write 2 commit\n  a1 lower transaction 2 none\n  a1 lower relation 0 none\n5 a1 ok\n".as_bytes()
    );
    Ok(())
}

#[test]
fn an_insert_at_a_page_of_another_relation(rt: HostRuntime) -> Result<(), Fail> {
    let transcript = play_over(
        &rt,
        rt.alloc(),
        file_of(
            rt.alloc(),
            8192,
            BEFORE_AN_INSERT_AT_A_PAGE_OF_ANOTHER_RELATION,
        )?,
        "a1 attach\na1 begin wait\na1 read t 4\na1 insert t z\na1 commit\n",
        true,
        &file_of(
            rt.alloc(),
            8192,
            AFTER_AN_INSERT_AT_A_PAGE_OF_ANOTHER_RELATION,
        )?,
    )?;
    assert_eq!(rt;
        transcript.bytes(),
        "1 a1 ok\n  a1 grant page 0 EX\n  a1 read 0\n  a1 grant page 2 PR\n  a1 read 2\n  a1 grant transaction 2 EX\n2 a1 transaction 2\n  a1 grant relation 0 SR\n  a1 grant page 3 PR\n  a1 read 3\n  a1 grant page 6 PR\n  a1 read 6\n3 a1 value r4\n  a1 grant relation 0 SW\n  a1 grant page 7 EX\n  a1 read 7\n4 a1 damaged 7 relation\n  a1 write 0 commit\n  a1 lower page 2 none\n  a1 grant page 2 EX\n  a1 read 2\n  a1 write 2 commit\n  a1 lower transaction 2 none\n  a1 lower relation 0 none\n5 a1 ok\n".as_bytes()
    );
    Ok(())
}

#[test]
fn a_read_at_a_page_of_another_relation(rt: HostRuntime) -> Result<(), Fail> {
    let transcript = play_over(
        &rt,
        rt.alloc(),
        file_of(
            rt.alloc(),
            8192,
            BEFORE_AN_INSERT_AT_A_PAGE_OF_ANOTHER_RELATION,
        )?,
        "a1 attach\na1 begin wait\na1 read t 4\na1 read t 0\na1 commit\n",
        true,
        &file_of(
            rt.alloc(),
            8192,
            AFTER_AN_INSERT_AT_A_PAGE_OF_ANOTHER_RELATION,
        )?,
    )?;
    assert_eq!(rt;
        transcript.bytes(),
        "1 a1 ok\n  a1 grant page 0 EX\n  a1 read 0\n  a1 grant page 2 PR\n  a1 read 2\n  a1 grant transaction 2 EX\n2 a1 transaction 2\n  a1 grant relation 0 SR\n  a1 grant page 3 PR\n  a1 read 3\n  a1 grant page 6 PR\n  a1 read 6\n3 a1 value r4\n  a1 grant page 7 PR\n  a1 read 7\n4 a1 damaged 7 relation\n  a1 write 0 commit\n  a1 lower page 2 none\n  a1 grant page 2 EX\n  a1 read 2\n  a1 write 2 commit\n  a1 lower transaction 2 none\n  a1 lower relation 0 none\n5 a1 ok\n".as_bytes()
    );
    Ok(())
}

#[test]
fn an_insert_at_a_page_of_another_sequence(rt: HostRuntime) -> Result<(), Fail> {
    let transcript = play_over(
        &rt,
        rt.alloc(),
        file_of(
            rt.alloc(),
            8192,
            BEFORE_AN_INSERT_AT_A_PAGE_OF_ANOTHER_SEQUENCE,
        )?,
        "a1 attach\na1 begin wait\na1 read t 4\na1 insert t z\na1 commit\n",
        true,
        &file_of(
            rt.alloc(),
            8192,
            AFTER_AN_INSERT_AT_A_PAGE_OF_ANOTHER_SEQUENCE,
        )?,
    )?;
    assert_eq!(rt;
        transcript.bytes(),
        "1 a1 ok\n  a1 grant page 0 EX\n  a1 read 0\n  a1 grant page 2 PR\n  a1 read 2\n  a1 grant transaction 2 EX\n2 a1 transaction 2\n  a1 grant relation 0 SR\n  a1 grant page 3 PR\n  a1 read 3\n  a1 grant page 6 PR\n  a1 read 6\n3 a1 value r4\n  a1 grant relation 0 SW\n  a1 lower page 6 none\n  a1 grant page 6 EX\n  a1 read 6\n4 a1 damaged 6 sequence\n  a1 write 0 commit\n  a1 lower page 2 none\n  a1 grant page 2 EX\n  a1 read 2\n  a1 write 2 commit\n  a1 lower transaction 2 none\n  a1 lower relation 0 none\n5 a1 ok\n".as_bytes()
    );
    Ok(())
}

#[test]
fn a_read_at_a_page_of_another_sequence(rt: HostRuntime) -> Result<(), Fail> {
    let transcript = play_over(
        &rt,
        rt.alloc(),
        file_of(
            rt.alloc(),
            8192,
            BEFORE_AN_INSERT_AT_A_PAGE_OF_ANOTHER_SEQUENCE,
        )?,
        "a1 attach\na1 begin wait\na1 read t 4\na1 read t 0\na1 commit\n",
        true,
        &file_of(
            rt.alloc(),
            8192,
            AFTER_AN_INSERT_AT_A_PAGE_OF_ANOTHER_SEQUENCE,
        )?,
    )?;
    assert_eq!(rt;
        transcript.bytes(),
        "1 a1 ok\n  a1 grant page 0 EX\n  a1 read 0\n  a1 grant page 2 PR\n  a1 read 2\n  a1 grant transaction 2 EX\n2 a1 transaction 2\n  a1 grant relation 0 SR\n  a1 grant page 3 PR\n  a1 read 3\n  a1 grant page 6 PR\n  a1 read 6\n3 a1 value r4\n4 a1 damaged 6 sequence\n  a1 write 0 commit\n  a1 lower page 2 none\n  a1 grant page 2 EX\n  a1 read 2\n  a1 write 2 commit\n  a1 lower transaction 2 none\n  a1 lower relation 0 none\n5 a1 ok\n".as_bytes()
    );
    Ok(())
}
