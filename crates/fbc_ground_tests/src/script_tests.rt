//! Scripts of a single transaction that have as many inserts as may be, or one more.

ghost use Rattle.std.specs.Prelude.{◌≤◌, length};

use fbc_script::{SingleTransaction, parse, single_transaction};
use std::alloc::{AllocError, Global};

/// How many steps the single transaction of a script has: none within where it is absent, and none
/// where the script asks for something else.
fn steps_in(alloc: Global, bytes: &[u8]) -> Result<Option<Option<usize>>, AllocError>
    requires { length bytes.now ≤ 100000 }
{
    let Ok(script) = parse(alloc, bytes, false) else {
        return Ok(None);
    };
    Ok(match single_transaction(alloc, &script)? {
        Some(SingleTransaction::Absent) => Some(None),
        Some(SingleTransaction::Steps(steps)) => Some(Some(steps.len())),
        None => None,
    })
}

#[test]
fn a_single_transaction_has_45_inserts_at_most(rt: HostRuntime) -> Result<(), AllocError> {
    for (inserts, reads, steps) in [
        (45, 0, Some(Some(45))),
        (45, 5, Some(Some(50))),
        (46, 0, None),
    ] {
        let mut bytes = Vec::new(rt.alloc());
        bytes.extend_from_slice(b"a1 attach\na1 begin wait\n")?;
        for _ in 0..inserts {
            bytes.extend_from_slice(b"a1 insert t x\n")?;
        }
        for _ in 0..reads {
            bytes.extend_from_slice(b"a1 read t 3\n")?;
        }
        bytes.extend_from_slice(b"a1 commit")?;
        assert!(rt; bytes.len() <= 100_000);
        assert_eq!(rt;
            steps_in(rt.alloc(), bytes.as_slice())?,
            steps,
            "{inserts} and {reads}"
        );
    }
    Ok(())
}
