//! Plays a script over a file, on a device in memory.

use fbc_files::Opened;
use fbc_outside::{MemoryDevice, MemorySink};
use fbc_script::parse;
use fbc_trials::{Played, Settings, play};
use std::alloc::Global;
use std::process::Abort;
use std::test::Fail;

/// How far the device reaches, in bytes.
const REACH: u64 = 1 << 30;

/// How many bytes a transcript may have.
const MOST_BYTES: usize = 65536;

/// The transcript of a script that is played to its end over the file, after which the device has these bytes.
pub(crate) fn play_over(
    rt: &impl Abort,
    alloc: Global,
    before: Vec<u8>,
    text: &str,
    trace: bool,
    after: &[u8],
) -> Result<MemorySink, Fail> {
    assert!(*rt; before.len() <= 65536);
    let mut device = MemoryDevice::new(alloc, before, REACH, Vec::new(alloc))?;
    let shape = match fbc_files::open(&mut device) {
        Ok(Opened { shape, length: _ }) => shape,
        Err(_) => panic!(*rt; "the file is one of this store's"),
    };
    assert!(*rt; text.len() < 65536);
    let script = match parse(alloc, text.as_bytes(), false) {
        Ok(script) => script,
        Err(_) => panic!(*rt; "the script can be read"),
    };
    let mut settings = Settings::new();
    settings.trace = trace;
    let mut transcript = MemorySink::new(alloc, MOST_BYTES)?;
    let Played { device, end } = play(alloc, &script, shape, device, settings, &mut transcript);
    assert!(*rt; end.is_ok());
    assert_eq!(*rt; device.bytes(), after);
    Ok(transcript)
}
