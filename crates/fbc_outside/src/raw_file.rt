//! A file as the machine gives it, whose calls may do a part of what they are asked for, and the
//! reading and writing of a whole piece over it.
ghost use Rattle.std.specs.Prelude.{◌≡◌, ℕ, ◌+◌, ◌<◌, ◌≤◌, ◌^◌, List, Option, None, length, take, IfSome, IfOk, OnOk, OnErr};
ghost use Rattle.fbc_outside.specs.Bytes.{IsWritten, ReadsFrom};
ghost use Rattle.fbc_outside.specs.RawFile.{ReadsPart};

use std::fs::File;
use std::io;
use std::os::unix::fs::FileExt;

/// A run of bytes of which a call reads or writes a part.
pub trait RawFile {
    // The bytes, from the first to the last; `None` where they are not told.
    ghost bytes: { Self → Option (List ℕ) };

    /// Puts some of the bytes that stand from `at` on first into `into`, and says how many: none
    /// only past the end, or into no room.
    fn read_part(&mut self, at: u64, into: &mut [u8]) -> io::Result<usize>
        ensures answer { IfOk result (λ n. ReadsPart (bytes self.old) at n into.new) }
        ensures within { IfOk result (λ n. n ≤ length into.new) }
        ensures bytes { bytes self.new ≡ bytes self.old };

    /// Puts some of the first bytes of `from` at `at`, with zeros in a gap before them, and says how
    /// many they are. Failed leaves the bytes as they are.
    fn write_part(&mut self, at: u64, from: &[u8]) -> io::Result<usize>
        ensures within { IfOk result (λ n. n ≤ length from.now) }
        ensures ok { IfOk result
            (λ n. 0 < n → IsWritten (bytes self.old) (bytes self.new) at (take n from.now)) }
        ensures none { IfOk result (λ n. n ≡ 0 → bytes self.new ≡ bytes self.old) }
        ensures err { OnErr result (bytes self.new ≡ bytes self.old) };

    // Each byte has a place that 64 bits can say.
    ghost within: { (f : Self) → IfSome (bytes f) (λ told. length told < 2 ^ 64) };
}

impl RawFile for File {
    ghost bytes = { λ _. None };

    ghost within = { λ _. tt };

    fn read_part(&mut self, at: u64, into: &mut [u8]) -> io::Result<usize> {
        self.read_at(into, at)
    }

    fn write_part(&mut self, at: u64, from: &[u8]) -> io::Result<usize> {
        self.write_at(from, at)
    }
}

/// Reads until `into` is full or the end is reached, in as many calls as that takes. A call that was
/// only interrupted is made again; there are 2^64 - 1 calls at most.
pub fn read_whole<F: RawFile>(file: &mut F, at: u64, into: &mut [u8]) -> io::Result<usize>
    ensures answer { IfOk result (λ n. ReadsFrom (F.bytes file.old) at n into.new) }
    ensures within { IfOk result (λ n. n ≤ length into.new) }
    ensures bytes { F.bytes file.new ≡ F.bytes file.old }
{
    let mut done = 0;
    for _ in 0..u64::MAX {
        if done == into.len() {
            return Ok(done);
        }
        match file.read_part(at.saturating_add(done as u64), &mut into[done..]) {
            Ok(0) => return Ok(done),
            Ok(count) => done += count,
            Err(error) if error.kind() == io::ErrorKind::Interrupted => {}
            Err(error) => return Err(error),
        }
    }
    Err(io::ErrorKind::Interrupted.into())
}

/// Writes the whole of `from`, in as many calls as that takes. A call that was only interrupted is
/// made again; there are 2^64 - 1 calls at most. Failed may leave a first part of `from` written.
///
/// Errors: what the machine says, and `WriteZero` where it takes nothing.
pub fn write_whole<F: RawFile>(file: &mut F, at: u64, from: &[u8]) -> io::Result<()>
    requires { at + length from.now < 2 ^ 64 }
    ensures written { OnOk result
        (0 < length from.now → IsWritten (F.bytes file.old) (F.bytes file.new) at from.now) }
{
    let mut done = 0;
    for _ in 0..u64::MAX {
        if done == from.len() {
            return Ok(());
        }
        match file.write_part(at + done as u64, &from[done..]) {
            Ok(0) => return Err(io::ErrorKind::WriteZero.into()),
            Ok(count) => done += count,
            Err(error) if error.kind() == io::ErrorKind::Interrupted => {}
            Err(error) => return Err(error),
        }
    }
    Err(io::ErrorKind::Interrupted.into())
}
