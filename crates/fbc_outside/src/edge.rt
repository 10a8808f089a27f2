//! The thin edge: a file, a reader and a writer of the machine. A call that the machine refuses is
//! a counted fault, and of the bytes nothing is told. Of a file whole pieces are read and written,
//! also where the machine does a part at a time or is interrupted; a reader and a writer are asked
//! once.
ghost use Rattle.std.specs.Prelude.{◌≡◌, ◌^◌, [], None};

use crate::device::Device;
use crate::fault::{Failed, count_fault};
use crate::raw_file::{read_whole, write_whole};
use crate::stream::{Sink, Source};
use std::fs::File;
use std::io::{Read, Write};

/// How many bytes a file can have at most: 2^40.
pub const FILE_REACH: u64 = 1 << 40;

/// A file as a device. A file that is longer than the reach fails at `length`. A read or a write goes
/// on after a part of its piece and after an interruption, and fails only where the machine fails it;
/// so a write that fails halfway may leave a first part of its piece, which no clause tells.
#[derive(Drop)]
pub struct FileDevice {
    file: File,
    reads: u64,
    writes: u64,
    faults: u64,
}

impl FileDevice {
    /// A device over an open file.
    pub fn new(file: File) -> FileDevice
        ensures reach { ⟦<FileDevice as Device>⟧.reach result ≡ 2 ^ 40 }
        ensures faults { ⟦<FileDevice as Device>⟧.faults result ≡ 0 }
        ensures reads { ⟦<FileDevice as Device>⟧.reads result ≡ 0 }
        ensures writes { ⟦<FileDevice as Device>⟧.writes result ≡ 0 }
    {
        FileDevice {
            file,
            reads: 0,
            writes: 0,
            faults: 0,
        }
    }
}

impl Device for FileDevice {
    ghost bytes = { λ _. None };

    ghost faults = { λ d. d.faults };

    ghost reads = { λ d. d.reads };

    ghost writes = { λ d. d.writes };

    ghost landings = { λ _. [] };

    ghost reach = { λ _. 2 ^ 40 };

    ghost within = { λ _. tt };

    fn reach(&self) -> u64 {
        FILE_REACH
    }

    fn length(&mut self) -> Result<u64, Failed> {
        match self.file.metadata() {
            Ok(found) if found.len() <= FILE_REACH => Ok(found.len()),
            _ => Err(count_fault(&mut self.faults)),
        }
    }

    fn read_at(&mut self, at: u64, into: &mut [u8]) -> Result<usize, Failed> {
        self.reads = self.reads.saturating_add(1);
        match read_whole(&mut self.file, at, into) {
            Ok(count) => Ok(count),
            Err(_) => Err(count_fault(&mut self.faults)),
        }
    }

    fn write_at(&mut self, at: u64, from: &[u8]) -> Result<(), Failed> {
        self.writes = self.writes.saturating_add(1);
        match write_whole(&mut self.file, at, from) {
            Ok(()) => Ok(()),
            Err(_) => Err(count_fault(&mut self.faults)),
        }
    }
}

/// A reader as a source, such as the standard input.
#[derive(Drop)]
pub struct StdSource<R> {
    reader: R,
    faults: u64,
}

impl<R: Read> StdSource<R> {
    /// A source of what the reader gives.
    pub fn new(reader: R) -> StdSource<R>
        ensures { ⟦<StdSource<R> as Source>⟧.faults result ≡ 0 }
    {
        StdSource { reader, faults: 0 }
    }
}

impl<R: Read> Source for StdSource<R> {
    ghost left = { λ _. None };

    ghost faults = { λ s. s.faults };

    fn read(&mut self, into: &mut [u8]) -> Result<usize, Failed> {
        match self.reader.read(into) {
            Ok(count) => Ok(count),
            Err(_) => Err(count_fault(&mut self.faults)),
        }
    }
}

/// A writer as a sink, such as the standard output. A writer that takes nothing of a piece fails.
#[derive(Drop)]
pub struct StdSink<W> {
    writer: W,
    faults: u64,
}

impl<W: Write> StdSink<W> {
    /// A sink that hands on to the writer.
    pub fn new(writer: W) -> StdSink<W>
        ensures { ⟦<StdSink<W> as Sink>⟧.faults result ≡ 0 }
    {
        StdSink { writer, faults: 0 }
    }
}

impl<W: Write> Sink for StdSink<W> {
    ghost may_have = { λ _ _. Unit {0} };

    ghost faults = { λ s. s.faults };

    fn write(&mut self, from: &[u8]) -> Result<usize, Failed> {
        match self.writer.write(from) {
            Ok(count) if count > 0 || from.is_empty() => Ok(count),
            _ => Err(count_fault(&mut self.faults)),
        }
    }
}
