//! The program `classic_console FILE COMMAND ..`: it opens the file, carries out the command by the
//! top call, with the standard input as the script's source, and ends with the status's number. What
//! it says beside the lines of the top call goes to standard error.
#![tactic(auto)]

mod access;
mod help;

ghost use Rattle.std.specs.Prelude.{◌≡◌, ◌⊎◌, IfErr};

use access::{Access, access_of, fill_standard_descriptors, open};
use fbc_console::{Ended, Status, console, end};
use fbc_outside::{FileDevice, Sink, StdSink, StdSource};
use help::HELP;
use std::process::ExitCode;
use std::{env, io};

fn main(rt: HostRuntime) -> ExitCode {
    let mut out = StdSink::new(io::writer(&rt));
    let status = match words_of(&rt) {
        Ok(words) => run(&rt, words.as_slice(), &mut out),
        Err(status) => refuse(&rt, status, &mut out),
    };
    ExitCode::from(status.number())
}

/// The words of the command line behind the program's name.
///
/// Errors: `Usage` where one of them is no text, `OutOfMemory`.
fn words_of(rt: &HostRuntime) -> Result<Vec<String>, Status>
    ensures { IfErr result (λ status. (status ≡ Status.OutOfMemory) ⊎ (status ≡ Status.Usage)) }
{
    let all = env::args(rt).map_err(|error| status_of(&error))?;
    let mut words = Vec::new(rt.alloc());
    for word in all.skip(1) {
        words.push(word).map_err(|_| Status::OutOfMemory)?;
    }
    Ok(words)
}

fn status_of(error: &io::Error) -> Status
    ensures { (result ≡ Status.OutOfMemory) ⊎ (result ≡ Status.Usage) }
{
    match error.kind() {
        io::ErrorKind::OutOfMemory => Status::OutOfMemory,
        _ => Status::Usage,
    }
}

/// Opens the file that the first word names, and carries out the others over it. Where these are no
/// command the file is neither opened nor made.
fn run<K: Sink>(rt: &HostRuntime, words: &[String], out: &mut K) -> Status {
    let [name, words @ ..] = words else {
        return refuse(rt, Status::Usage, out);
    };
    let access = match access_of(rt.alloc(), words) {
        Ok(access) => access,
        Err(status) => return refuse(rt, status, out),
    };
    match carry_out(rt, name.as_str(), access, words, out) {
        Ok(status) => status,
        Err(error) => {
            let status = refuse(rt, Status::DeviceFault, out);
            let _ = eprintln!(rt; "{name}: {error}");
            status
        }
    }
}

/// Opens the file and carries out the words over it.
///
/// Errors: what the machine says where the file can't be opened; nothing was written then.
fn carry_out<K: Sink>(
    rt: &HostRuntime,
    name: &str,
    access: Access,
    words: &[String],
    out: &mut K,
) -> io::Result<Status> {
    let _standard = fill_standard_descriptors(rt)?;
    let device = FileDevice::new(open(rt, name, access)?);
    let mut script = StdSource::new(rt.reader());
    let Ended { status, device: _ } = console(rt.alloc(), words, device, &mut script, out);
    Ok(status)
}

/// Ends before a file is opened, with the help on standard error behind `usage`.
fn refuse<K: Sink>(rt: &HostRuntime, why: Status, out: &mut K) -> Status {
    let status = end(rt.alloc(), Err(why), out);
    if why == Status::Usage {
        let _ = rt.eprint(HELP);
    }
    status
}
