//! How the program opens the file that it is given.

ghost use Rattle.std.specs.Prelude.{IfOk, IfErr};
ghost use Rattle.classic_console.specs.Access.{Asks, IsRefused};

use fbc_command_line::{Command, command_of};
use fbc_console::Status;
use std::alloc::Global;
use std::fs::{File, OpenOptions};
use std::io;

/// What a command does with its file.
#[derive(Clone, Copy, Debug, PartialEq, Eq)]
pub enum Access {
    /// It is made where it is missing.
    Make,
    /// It is read and written.
    Change,
    /// It is only read.
    Read,
}

/// What the words, without the file's name, ask to do with it.
///
/// Errors: `Usage` where they are no command, `OutOfMemory`.
pub fn access_of(alloc: Global, words: &[String]) -> Result<Access, Status>
    ensures asks { IfOk result (Asks words.now) }
    ensures refused { IfErr result (IsRefused words.now) }
{
    match command_of(alloc, words) {
        Ok(
            Some(
                Command::Create {
                    size: _,
                    relations: _,
                },
            ),
        ) => Ok(Access::Make),
        Ok(Some(Command::Play)) => Ok(Access::Change),
        Ok(Some(Command::Validate { json: _ })) => Ok(Access::Read),
        Ok(None) => Err(Status::Usage),
        Err(_) => Err(Status::OutOfMemory),
    }
}

/// Files in the place of the standard input, output and error where these are closed. Opening takes
/// the least free descriptor: so while these three are open, no file that is opened gets one of the
/// first three, and nothing that is printed goes into it. They are folders, which can be neither read
/// nor written as bytes: a closed input stays a source that fails, and a closed output a sink that
/// fails.
pub fn fill_standard_descriptors(rt: &HostRuntime) -> io::Result<[File; 3]> {
    Ok([
        File::open(rt, "/")?,
        File::open(rt, "/")?,
        File::open(rt, "/")?,
    ])
}

/// Opens a file for what is done with it.
pub fn open(rt: &HostRuntime, name: &str, access: Access) -> io::Result<File> {
    match access {
        Access::Make => make_or_open(rt, name),
        Access::Change => open_to_change(rt, name),
        Access::Read => File::open(rt, name),
    }
}

/// Makes a file where nothing has its name, and else opens the one that has it. Of several programs
/// that make one file at the same time, one makes it and the others open it.
fn make_or_open(rt: &HostRuntime, name: &str) -> io::Result<File> {
    match File::create_new(rt, name) {
        Err(error) if error.kind() == io::ErrorKind::AlreadyExists => open_to_change(rt, name),
        made => made,
    }
}

fn open_to_change(rt: &HostRuntime, name: &str) -> io::Result<File> {
    OpenOptions::new().read(true).write(true).open(rt, name)
}
