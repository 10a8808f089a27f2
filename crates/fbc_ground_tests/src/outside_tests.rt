//! What the clauses leave to examples: the calls in memory once each, with values worked out by
//! hand.
ghost use Rattle.std.specs.Prelude.{◌≡◌, length, IfOk, Some};

use fbc_outside::{
    CallKind, Device, Fail, Failed, Gate, MemoryDevice, MemorySink, MemorySource, NoGate, Source,
    StdSink, StdSource, SteadyDevice, StepName, write_all,
};
use std::alloc::{AllocError, Global};

/// A device of the bytes 1 to 4 that reaches to 8.
fn four(alloc: Global, fails: &[Fail]) -> Result<MemoryDevice, AllocError>
    ensures { IfOk result (λ d. ⟦<MemoryDevice as Device>⟧.reach d ≡ 8) }
{
    let bytes = vec![in alloc; 1, 2, 3, 4]?;
    MemoryDevice::new(alloc, bytes, 8, Vec::from_slice(alloc, fails)?)
}

const fn fail(kind: CallKind, number: u64, landed: bool) -> Fail {
    Fail {
        kind,
        number,
        landed,
    }
}

const LANDED: Fail = Fail {
    kind: CallKind::Write,
    number: 1,
    landed: true,
};

const LOST: Fail = Fail {
    kind: CallKind::Write,
    number: 1,
    landed: false,
};

const SECOND: Fail = Fail {
    kind: CallKind::Write,
    number: 2,
    landed: true,
};

const READ: Fail = Fail {
    kind: CallKind::Read,
    number: 1,
    landed: true,
};

/// A name, the calls that fail, where what is written, whether that is told to have been done, and the bytes after it.
type WriteRow = (
    &'static str,
    &'static [Fail],
    u64,
    &'static [u8],
    bool,
    &'static [u8],
);

const WRITES: &[WriteRow] = &[
    ("inside", &[], 1, &[9, 9], true, &[1, 9, 9, 4]),
    ("across the end", &[], 3, &[8, 9], true, &[1, 2, 3, 8, 9]),
    ("past a gap", &[], 6, &[7], true, &[1, 2, 3, 4, 0, 0, 7]),
    ("nothing past a gap", &[], 6, &[], true, &[1, 2, 3, 4, 0, 0]),
    ("landed", &[LANDED], 0, &[9], false, &[9, 2, 3, 4]),
    ("lost", &[LOST], 0, &[9], false, &[1, 2, 3, 4]),
    (
        "first entry",
        &[LOST, LANDED],
        0,
        &[9],
        false,
        &[1, 2, 3, 4],
    ),
    ("another number", &[SECOND], 0, &[9], true, &[9, 2, 3, 4]),
    ("another kind", &[READ], 0, &[9], true, &[9, 2, 3, 4]),
];

#[test]
fn writes_land_or_not(rt: HostRuntime) -> Result<(), AllocError> {
    for (name, fails, at, from, ok, after) in WRITES {
        assert!(rt; from.len() <= 8 && *at <= 8 - from.len() as u64);
        let mut device = four(rt.alloc(), fails)?;
        let answer = device.write_at(*at, from);
        assert_eq!(rt; answer.is_ok(), *ok, "{name}");
        assert_eq!(rt; device.bytes(), *after, "{name}");
        assert_eq!(rt; device.faults(), u64::from(!*ok), "{name}");
        assert_eq!(rt; device.writes(), 1, "{name}");
    }
    Ok(())
}

/// From where how many bytes are read, the answer, and the room after it, of three bytes.
const READS: &[(u64, usize, Result<usize, Failed>, [u8; 3])] = &[
    (0, 2, Ok(2), [1, 2, 0]),
    (0, 3, Err(Failed), [0, 0, 0]),
    (1, 3, Ok(3), [2, 3, 4]),
    (3, 3, Ok(1), [4, 0, 0]),
    (4, 3, Ok(0), [0, 0, 0]),
    (1 << 50, 3, Ok(0), [0, 0, 0]),
];

#[test]
fn reads_stop_at_the_end(rt: HostRuntime) -> Result<(), AllocError> {
    let second = fail(CallKind::Read, 2, false);
    let mut device = four(rt.alloc(), &[second])?;
    for (at, room, answer, after) in READS {
        assert!(rt; *room <= 3);
        let mut into = [0; 3];
        assert_eq!(rt; device.read_at(*at, &mut into[..*room]), *answer, "at {at}");
        assert_eq!(rt; into, *after, "at {at}");
    }
    assert_eq!(rt; device.length(), Ok(4));
    assert_eq!(rt;
        (device.lengths(), device.reads(), device.faults()),
        (1, 6, 1)
    );
    assert_eq!(rt; device.into_bytes().as_slice(), [1, 2, 3, 4].as_slice());
    Ok(())
}

#[test]
fn lengths_fail_when_listed(rt: HostRuntime) -> Result<(), AllocError> {
    let mut device = four(rt.alloc(), &[fail(CallKind::Length, 2, false)])?;
    for answer in [Ok(4), Err(Failed), Ok(4)] {
        assert_eq!(rt; device.length(), answer);
    }
    assert_eq!(rt; device.reach(), 8);
    let mut steady = SteadyDevice::new(rt.alloc(), vec![in rt.alloc(); 1, 2]?, 4)?;
    assert_eq!(rt; steady.write_at(3, &[5]), Ok(()));
    assert_eq!(rt; steady.length(), Ok(4));
    assert_eq!(rt; steady.bytes(), [1, 2, 0, 5].as_slice());
    assert_eq!(rt; (steady.reads(), steady.writes()), (0, 1));
    Ok(())
}

/// The answer to each read of two bytes, and the room after it.
const PIECES: &[(Result<usize, Failed>, [u8; 2])] = &[
    (Ok(2), [1, 2]),
    (Err(Failed), [0, 0]),
    (Ok(2), [3, 4]),
    (Ok(1), [5, 0]),
    (Ok(0), [0, 0]),
];

#[test]
fn sources_fail_once_and_lose_nothing(rt: HostRuntime) -> Result<(), AllocError> {
    let bytes = vec![in rt.alloc(); 1, 2, 3, 4, 5]?;
    let mut source = MemorySource::new(bytes, Some(2));
    for (answer, after) in PIECES {
        let mut into = [0; 2];
        assert_eq!(rt; source.read(&mut into), *answer);
        assert_eq!(rt; into, *after);
    }
    assert_eq!(rt; source.faults(), 1);
    Ok(())
}

/// Each piece, the answer to it, and what the sink of four bytes has after it.
const TAKEN: &[(&'static [u8], Result<(), Failed>, &'static [u8])] = &[
    (&[1, 2, 3], Ok(()), &[1, 2, 3]),
    (&[4, 5], Err(Failed), &[1, 2, 3]),
    (&[], Ok(()), &[1, 2, 3]),
    (&[6], Ok(()), &[1, 2, 3, 6]),
];

#[test]
fn sinks_take_whole_pieces_while_they_have_room(rt: HostRuntime) -> Result<(), AllocError> {
    let mut sink = MemorySink::new(rt.alloc(), 4)?;
    for (text, answer, after) in TAKEN {
        assert_eq!(rt; write_all(&mut sink, text), *answer);
        assert_eq!(rt; sink.bytes(), *after);
    }
    assert_eq!(rt; sink.faults(), 1);
    Ok(())
}

#[test]
fn edges_hand_on_and_count(rt: HostRuntime) {
    let mut source = StdSource::new([1u8, 2, 3].as_slice());
    for count in [2, 1, 0] {
        let mut into = [0; 2];
        assert!(rt; source.read(&mut into) == Ok(count));
    }
    let mut room = [0; 3];
    let mut sink = StdSink::new(room.as_mut_slice());
    for (text, answer) in [([1, 2], Ok(())), ([3, 4], Err(Failed))] {
        assert!(rt; write_all(&mut sink, &text) == answer);
    }
    NoGate.pass(8, StepName::Answer);
}
