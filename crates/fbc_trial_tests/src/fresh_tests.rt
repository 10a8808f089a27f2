//! Plays over the new file: their transcripts, and the files behind them, given as parts between which all bytes are zeros.

use crate::playing::play_over;
use fbc_samples::{FRESH, Part, file_of};
use std::test::Fail;

const AFTER_ONE_TRANSACTION: &[Part] = &[
    (0, &[1, 1]),
    (
        16,
        &[
            0x46, 0x42, 0x43, 0x50, 0x41, 0x47, 0x45, 0x53, 0, 4, 0, 0, 1, 0, 0, 0, 2, 0, 0, 0, 1,
            0, 1, 0, 1,
        ],
    ),
    (48, &[1, 0x74]),
    (64, &[0x0a, 0, 1, 0, 3]),
    (336, &[2]),
    (1024, &[2, 1, 0, 0, 1]),
    (1040, &[0x1f]),
    (2048, &[3, 1, 0, 0, 2]),
    (2064, &[0x0c]),
    (3072, &[4, 1, 0, 0, 3]),
    (3088, &[4]),
    (4096, &[5, 1, 0, 0, 4]),
    (4112, &[1, 1, 0, 0, 1]),
    (4124, &[0x78]),
];

const AFTER_A_READER_BESIDE_A_WRITER: &[Part] = &[
    (0, &[1, 1]),
    (
        16,
        &[
            0x46, 0x42, 0x43, 0x50, 0x41, 0x47, 0x45, 0x53, 0, 4, 0, 0, 1, 0, 0, 0, 2, 0, 0, 0, 1,
            0, 1, 0, 1,
        ],
    ),
    (48, &[1, 0x74]),
    (64, &[0x0a, 0, 1, 0, 3]),
    (336, &[2]),
    (1024, &[2, 1, 0, 0, 1]),
    (1040, &[0x1f]),
    (2048, &[3, 1, 0, 0, 2]),
    (3072, &[4, 1, 0, 0, 3]),
    (3088, &[4]),
    (4096, &[5, 1, 0, 0, 4]),
    (4112, &[1, 1, 0, 0, 1]),
    (4124, &[0x78]),
];

const AFTER_STEPS_OF_ONE_NAME: &[Part] = &[
    (0, &[1, 1]),
    (
        16,
        &[
            0x46, 0x42, 0x43, 0x50, 0x41, 0x47, 0x45, 0x53, 0, 4, 0, 0, 1, 0, 0, 0, 2, 0, 0, 0, 1,
            0, 1, 0, 1,
        ],
    ),
    (48, &[1, 0x74]),
    (64, &[0x0a, 0, 1, 0, 3]),
    (336, &[2]),
    (1024, &[2, 1, 0, 0, 1]),
    (1040, &[0x0f]),
    (2048, &[3, 1, 0, 0, 2]),
    (3072, &[4, 1, 0, 0, 3]),
];

const AFTER_A_DEATH_AT_THE_THIRD_WRITE_OF_A_COMMIT: &[Part] = &[
    (0, &[1, 1]),
    (
        16,
        &[
            0x46, 0x42, 0x43, 0x50, 0x41, 0x47, 0x45, 0x53, 0, 4, 0, 0, 1, 0, 0, 0, 2, 0, 0, 0, 1,
            0, 1, 0, 1,
        ],
    ),
    (48, &[1, 0x74]),
    (64, &[0x0a, 0, 1, 0, 3]),
    (336, &[2]),
    (1024, &[2, 1, 0, 0, 1]),
    (1040, &[0x1f]),
    (2048, &[3, 1, 0, 0, 2]),
    (3072, &[4, 1, 0, 0, 3]),
];

const AFTER_A_DEATH_AT_THE_FOURTH_WRITE_OF_A_COMMIT: &[Part] = &[
    (0, &[1, 1]),
    (
        16,
        &[
            0x46, 0x42, 0x43, 0x50, 0x41, 0x47, 0x45, 0x53, 0, 4, 0, 0, 1, 0, 0, 0, 2, 0, 0, 0, 1,
            0, 1, 0, 1,
        ],
    ),
    (48, &[1, 0x74]),
    (64, &[0x0a, 0, 1, 0, 3]),
    (336, &[2]),
    (1024, &[2, 1, 0, 0, 1]),
    (1040, &[0x1f]),
    (2048, &[3, 1, 0, 0, 2]),
    (3072, &[4, 1, 0, 0, 3]),
    (4096, &[5, 1, 0, 0, 4]),
    (4112, &[1, 1, 0, 0, 1]),
    (4124, &[0x78]),
];

#[test]
fn one_transaction(rt: HostRuntime) -> Result<(), Fail> {
    let transcript = play_over(
        &rt,
        rt.alloc(),
        file_of(rt.alloc(), 4096, FRESH)?,
        "a1 attach\na1 begin wait\na1 insert t x\na1 read t 0\na1 commit\n",
        false,
        &file_of(rt.alloc(), 5120, AFTER_ONE_TRANSACTION)?,
    )?;
    assert_eq!(rt;
        transcript.bytes(),
        "1 a1 ok\n2 a1 transaction 1\n3 a1 row 0\n4 a1 value x\n5 a1 ok\n".as_bytes()
    );
    Ok(())
}

#[test]
fn one_transaction_with_its_events(rt: HostRuntime) -> Result<(), Fail> {
    let transcript = play_over(
        &rt,
        rt.alloc(),
        file_of(rt.alloc(), 4096, FRESH)?,
        "a1 attach\na1 begin wait\na1 insert t x\na1 read t 0\na1 commit\n",
        true,
        &file_of(rt.alloc(), 5120, AFTER_ONE_TRANSACTION)?,
    )?;
    assert_eq!(rt;
        transcript.bytes(),
        "1 a1 ok\n  a1 grant page 0 EX\n  a1 read 0\n  a1 grant page 2 PR\n  a1 read 2\n  a1 grant transaction 1 EX\n2 a1 transaction 1\n  a1 grant relation 0 SW\n  a1 grant page 3 PR\n  a1 read 3\n  a1 grant page 1 EX\n  a1 read 1\n  a1 grant page 4 EX\n  a1 lower page 3 none\n  a1 grant page 3 EX\n  a1 read 3\n3 a1 row 0\n4 a1 value x\n  a1 write 0 commit\n  a1 write 1 commit\n  a1 write 4 commit\n  a1 write 3 commit\n  a1 lower page 2 none\n  a1 grant page 2 EX\n  a1 read 2\n  a1 write 2 commit\n  a1 lower transaction 1 none\n  a1 lower relation 0 none\n5 a1 ok\n".as_bytes()
    );
    Ok(())
}

#[test]
fn an_empty_script(rt: HostRuntime) -> Result<(), Fail> {
    let transcript = play_over(
        &rt,
        rt.alloc(),
        file_of(rt.alloc(), 4096, FRESH)?,
        "",
        false,
        &file_of(rt.alloc(), 4096, FRESH)?,
    )?;
    assert_eq!(rt; transcript.bytes(), "".as_bytes());
    Ok(())
}

#[test]
fn a_reader_beside_a_writer(rt: HostRuntime) -> Result<(), Fail> {
    let transcript = play_over(
        &rt,
        rt.alloc(),
        file_of(rt.alloc(), 4096, FRESH)?,
        "a1 attach\na2 attach\na1 begin wait\na1 insert t x\na2 begin wait\na2 read t 0\na1 read t 0\n",
        true,
        &file_of(rt.alloc(), 5120, AFTER_A_READER_BESIDE_A_WRITER)?,
    )?;
    assert_eq!(rt;
        transcript.bytes(),
        "1 a1 ok\n2 a2 ok\n  a1 grant page 0 EX\n  a1 read 0\n  a1 grant page 2 PR\n  a1 read 2\n  a1 grant transaction 1 EX\n3 a1 transaction 1\n  a1 grant relation 0 SW\n  a1 grant page 3 PR\n  a1 read 3\n  a1 grant page 1 EX\n  a1 read 1\n  a1 grant page 4 EX\n  a1 lower page 3 none\n  a1 grant page 3 EX\n  a1 read 3\n4 a1 row 0\n  a1 write 0 callback a2\n  a1 lower page 0 none\n  a2 grant page 0 EX\n  a2 read 0\n  a2 grant page 2 PR\n  a2 read 2\n  a2 grant transaction 2 EX\n5 a2 transaction 2\n  a2 grant relation 0 SR\n  a1 write 1 callback a2\n  a1 write 4 callback a2\n  a1 write 3 callback a2\n  a1 lower page 3 PR\n  a2 grant page 3 PR\n  a2 read 3\n  a1 lower page 4 PR\n  a2 grant page 4 PR\n  a2 read 4\n6 a2 none\n7 a1 value x\n".as_bytes()
    );
    Ok(())
}

#[test]
fn steps_of_one_name(rt: HostRuntime) -> Result<(), Fail> {
    let transcript = play_over(
        &rt,
        rt.alloc(),
        file_of(rt.alloc(), 4096, FRESH)?,
        "a1 attach\na2 attach\npost a1 begin wait\nstep a1 3\npost a2 begin wait\nstep a2 3\nrun\n",
        false,
        &file_of(rt.alloc(), 4096, AFTER_STEPS_OF_ONE_NAME)?,
    )?;
    assert_eq!(rt;
        transcript.bytes(),
        "1 a1 ok\n2 a2 ok\n5 a2 waits a1\n3 a1 transaction 1\n5 a2 transaction 2\n".as_bytes()
    );
    Ok(())
}

#[test]
fn what_a_dead_owner_leaves_is_taken_away(rt: HostRuntime) -> Result<(), Fail> {
    let transcript = play_over(
        &rt,
        rt.alloc(),
        file_of(rt.alloc(), 4096, FRESH)?,
        "a1 attach\na2 attach\na1 begin wait\nkill a1\na2 begin wait\n",
        true,
        &file_of(rt.alloc(), 4096, FRESH)?,
    )?;
    assert_eq!(rt;
        transcript.bytes(),
        "1 a1 ok\n2 a2 ok\n  a1 grant page 0 EX\n  a1 read 0\n  a1 grant page 2 PR\n  a1 read 2\n  a1 grant transaction 1 EX\n3 a1 transaction 1\n4 a1 killed\n  a2 reap a1\n  a2 grant page 0 EX\n  a2 read 0\n  a2 grant page 2 PR\n  a2 read 2\n  a2 grant transaction 1 EX\n5 a2 transaction 1\n".as_bytes()
    );
    Ok(())
}

#[test]
fn a_death_before_the_answer(rt: HostRuntime) -> Result<(), Fail> {
    let transcript = play_over(
        &rt,
        rt.alloc(),
        file_of(rt.alloc(), 4096, FRESH)?,
        "a1 attach\na1 begin wait\na1 insert t x\ntrap a1 answer 1\na1 commit\na2 attach\na2 begin wait\na2 read t 0\n",
        false,
        &file_of(rt.alloc(), 5120, AFTER_ONE_TRANSACTION)?,
    )?;
    assert_eq!(rt;
        transcript.bytes(),
        "1 a1 ok\n2 a1 transaction 1\n3 a1 row 0\n5 a1 killed\n6 a2 ok\n7 a2 transaction 2\n8 a2 value x\n".as_bytes()
    );
    Ok(())
}

#[test]
fn a_death_before_the_mark(rt: HostRuntime) -> Result<(), Fail> {
    let transcript = play_over(
        &rt,
        rt.alloc(),
        file_of(rt.alloc(), 4096, FRESH)?,
        "a1 attach\na1 begin wait\na1 insert t x\ntrap a1 mark 1\na1 commit\na2 attach\na2 begin wait\na2 read t 0\n",
        false,
        &file_of(rt.alloc(), 5120, AFTER_A_READER_BESIDE_A_WRITER)?,
    )?;
    assert_eq!(rt;
        transcript.bytes(),
        "1 a1 ok\n2 a1 transaction 1\n3 a1 row 0\n5 a1 killed\n6 a2 ok\n7 a2 transaction 2\n8 a2 none\n".as_bytes()
    );
    Ok(())
}

#[test]
fn posts_in_progress(rt: HostRuntime) -> Result<(), Fail> {
    let transcript = play_over(
        &rt,
        rt.alloc(),
        file_of(rt.alloc(), 4096, FRESH)?,
        "a1 attach\npost a1 begin wait\na1 insert t x\nstep a1 2\nkill a1\npost a1 attach\nkill a1\nrun\na1 begin wait\npost a1 insert t y\nstep a1 4\na1 read t 0\nrun\na1 read t 0\n",
        false,
        &file_of(rt.alloc(), 4096, FRESH)?,
    )?;
    assert_eq!(rt;
        transcript.bytes(),
        "1 a1 ok\n3 a1 inprogress\n2 a1 transaction 1\n5 a1 killed\n7 a1 notattached\n6 a1 ok\n9 a1 transaction 1\n12 a1 inprogress\n10 a1 row 0\n14 a1 value y\n".as_bytes()
    );
    Ok(())
}

#[test]
fn a_death_at_the_first_write_of_a_commit(rt: HostRuntime) -> Result<(), Fail> {
    let transcript = play_over(
        &rt,
        rt.alloc(),
        file_of(rt.alloc(), 4096, FRESH)?,
        "a1 attach\ntrap a1 write 1\na1 begin wait\na1 insert t x\na1 read t 0\na1 commit\n",
        false,
        &file_of(rt.alloc(), 4096, FRESH)?,
    )?;
    assert_eq!(rt;
        transcript.bytes(),
        "1 a1 ok\n3 a1 transaction 1\n4 a1 row 0\n5 a1 value x\n6 a1 killed\n".as_bytes()
    );
    Ok(())
}

#[test]
fn a_death_at_the_second_write_of_a_commit(rt: HostRuntime) -> Result<(), Fail> {
    let transcript = play_over(
        &rt,
        rt.alloc(),
        file_of(rt.alloc(), 4096, FRESH)?,
        "a1 attach\ntrap a1 write 2\na1 begin wait\na1 insert t x\na1 read t 0\na1 commit\n",
        false,
        &file_of(rt.alloc(), 4096, AFTER_STEPS_OF_ONE_NAME)?,
    )?;
    assert_eq!(rt;
        transcript.bytes(),
        "1 a1 ok\n3 a1 transaction 1\n4 a1 row 0\n5 a1 value x\n6 a1 killed\n".as_bytes()
    );
    Ok(())
}

#[test]
fn a_death_at_the_third_write_of_a_commit(rt: HostRuntime) -> Result<(), Fail> {
    let transcript = play_over(
        &rt,
        rt.alloc(),
        file_of(rt.alloc(), 4096, FRESH)?,
        "a1 attach\ntrap a1 write 3\na1 begin wait\na1 insert t x\na1 read t 0\na1 commit\n",
        false,
        &file_of(
            rt.alloc(),
            4096,
            AFTER_A_DEATH_AT_THE_THIRD_WRITE_OF_A_COMMIT,
        )?,
    )?;
    assert_eq!(rt;
        transcript.bytes(),
        "1 a1 ok\n3 a1 transaction 1\n4 a1 row 0\n5 a1 value x\n6 a1 killed\n".as_bytes()
    );
    Ok(())
}

#[test]
fn a_death_at_the_fourth_write_of_a_commit(rt: HostRuntime) -> Result<(), Fail> {
    let transcript = play_over(
        &rt,
        rt.alloc(),
        file_of(rt.alloc(), 4096, FRESH)?,
        "a1 attach\ntrap a1 write 4\na1 begin wait\na1 insert t x\na1 read t 0\na1 commit\n",
        false,
        &file_of(
            rt.alloc(),
            5120,
            AFTER_A_DEATH_AT_THE_FOURTH_WRITE_OF_A_COMMIT,
        )?,
    )?;
    assert_eq!(rt;
        transcript.bytes(),
        "1 a1 ok\n3 a1 transaction 1\n4 a1 row 0\n5 a1 value x\n6 a1 killed\n".as_bytes()
    );
    Ok(())
}

#[test]
fn a_death_at_the_fifth_write_of_a_commit(rt: HostRuntime) -> Result<(), Fail> {
    let transcript = play_over(
        &rt,
        rt.alloc(),
        file_of(rt.alloc(), 4096, FRESH)?,
        "a1 attach\ntrap a1 write 5\na1 begin wait\na1 insert t x\na1 read t 0\na1 commit\n",
        false,
        &file_of(rt.alloc(), 5120, AFTER_A_READER_BESIDE_A_WRITER)?,
    )?;
    assert_eq!(rt;
        transcript.bytes(),
        "1 a1 ok\n3 a1 transaction 1\n4 a1 row 0\n5 a1 value x\n6 a1 killed\n".as_bytes()
    );
    Ok(())
}

/// An attach takes two steps and a begin seven: refusals of another name stand between them as marks.
#[test]
fn an_attach_takes_two_steps_and_a_begin_seven(rt: HostRuntime) -> Result<(), Fail> {
    let transcript = play_over(
        &rt,
        rt.alloc(),
        file_of(rt.alloc(), 4096, FRESH)?,
        "post a1 attach\nstep a1 1\npost a2 commit\nstep a1 1\npost a1 begin wait\nstep a1 6\npost a2 commit\nstep a1 1\n",
        false,
        &file_of(rt.alloc(), 4096, FRESH)?,
    )?;
    assert_eq!(rt;
        transcript.bytes(),
        "3 a2 notattached\n1 a1 ok\n7 a2 notattached\n5 a1 transaction 1\n".as_bytes()
    );
    Ok(())
}
