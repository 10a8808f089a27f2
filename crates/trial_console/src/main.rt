//! The program `trial_console FILE play [--trace] [--buffers N] [--locks N] [--budget N]`: it plays the script on the standard
//! input by real attachments, so far as their statements are built. It is a tool of tests.
#![tactic(auto)]

mod words;

ghost use Rattle.fbc_kinds.specs.HeaderSpelling.{IsFileShape};

use fbc_files::OpenFault;
use fbc_kinds::Shape;
use fbc_outside::{Device, FileDevice, Sink, Source, StdSink, StdSource, write_all};
use fbc_script::{ParseFault, Script, parse};
use fbc_trials::{End, Played, Settings, play};
use std::alloc::{AllocError, Global};
use std::fs::OpenOptions;
use std::process::ExitCode;
use std::{env, io};
use words::settings_of;

/// How the program is called.
const HOW: &[u8] =
    b"trial_console FILE play [--trace] [--buffers N] [--locks N] [--budget N] < SCRIPT\n";

/// So many bytes a script may have at most.
const SCRIPT_LIMIT: usize = 4_194_304;

fn main(rt: HostRuntime) -> ExitCode {
    let mut out = StdSink::new(io::writer(&rt));
    let status = match words_of(&rt) {
        Some(words) => carry_out(&rt, words.as_slice(), &mut out),
        None => tell(&mut out, b"usage\n", 1),
    };
    ExitCode::from(status)
}

/// The words of the command line behind the program's name; none where one is no text, or there is no memory for them.
fn words_of(rt: &HostRuntime) -> Option<Vec<String>> {
    let all = match env::args(rt) {
        Ok(all) => all,
        Err(_) => return None,
    };
    let mut words = Vec::new(rt.alloc());
    for word in all.skip(1) {
        if words.push(word).is_err() {
            return None;
        }
    }
    Some(words)
}

/// Carries out the words: the name of a file, and the play of a script over it.
fn carry_out<K: Sink>(rt: &HostRuntime, words: &[String], out: &mut K) -> u8 {
    match words {
        [file, command, options @ ..] if command.as_str() == "play" => {
            match settings_of(rt.alloc(), options) {
                Ok(Some(settings)) => run(rt, file.as_str(), settings, out),
                Ok(None) => tell(out, b"usage\n", 1),
                Err(_) => tell(out, b"memory\n", 7),
            }
        }
        [] => tell(out, HOW, 0),
        _ => tell(out, b"usage\n", 1),
    }
}

/// Writes a last line, and gives the status.
fn tell<K: Sink>(out: &mut K, line: &[u8], status: u8) -> u8 {
    match write_all(out, line) {
        Ok(()) => status,
        Err(_) => 6,
    }
}

/// Opens the file, and plays the script over it.
fn run<K: Sink>(rt: &HostRuntime, name: &str, settings: Settings, out: &mut K) -> u8 {
    let file = match OpenOptions::new().read(true).write(true).open(rt, name) {
        Ok(file) => file,
        Err(_) => return tell(out, b"device\n", 4),
    };
    let mut device = FileDevice::new(file);
    match fbc_files::open(&mut device) {
        Ok(opened) => run_script(rt, settings, opened.shape, device, out),
        Err(fault) => refuse(rt.alloc(), fault, out),
    }
}

/// The status where the file is not opened.
fn refuse<K: Sink>(alloc: Global, fault: OpenFault, out: &mut K) -> u8 {
    match fault {
        OpenFault::DeviceFault => tell(out, b"device\n", 4),
        OpenFault::NotOurs(rule) => match format!(in alloc; "notours {rule}\n") {
            Ok(line) => tell(out, line.as_bytes(), 3),
            Err(_) => tell(out, b"memory\n", 7),
        },
    }
}

/// Reads the script, and plays it.
fn run_script<D: Device + Drop, K: Sink>(
    rt: &HostRuntime,
    settings: Settings,
    shape: Shape,
    device: D,
    out: &mut K,
) -> u8
    requires { IsFileShape shape }
{
    let alloc = rt.alloc();
    let mut source = StdSource::new(rt.reader());
    let text = match read_script(alloc, &mut source) {
        Ok(Some(text)) => text,
        Ok(None) => return tell(out, b"source\n", 5),
        Err(_) => return tell(out, b"memory\n", 7),
    };
    if text.len() > SCRIPT_LIMIT {
        return tell(out, b"scriptlong\n", 10);
    }
    match parse(alloc, text.as_slice(), false) {
        Ok(script) => play_script(rt, settings, &script, shape, device, out),
        Err(ParseFault::Memory) => tell(out, b"memory\n", 7),
        Err(ParseFault::Script(fault)) => match format!(in alloc; "script {fault}\n") {
            Ok(line) => tell(out, line.as_bytes(), 2),
            Err(_) => tell(out, b"memory\n", 7),
        },
    }
}

/// Reads what the source has, up to one byte more than a script may have; none where it fails.
fn read_script<S: Source>(alloc: Global, source: &mut S) -> Result<Option<Vec<u8>>, AllocError> {
    let mut text = Vec::new(alloc);
    let mut buffer = [0; 4096];
    for _ in 0..=SCRIPT_LIMIT {
        match source.read(&mut buffer) {
            Ok(0) => break,
            Ok(count) if count <= 4096 => text.extend_from_slice(&buffer[..count])?,
            _ => return Ok(None),
        }
        if text.len() > SCRIPT_LIMIT {
            break;
        }
    }
    Ok(Some(text))
}

/// Plays the script.
fn play_script<D: Device + Drop, K: Sink>(
    rt: &HostRuntime,
    settings: Settings,
    script: &Script,
    shape: Shape,
    device: D,
    out: &mut K,
) -> u8
    requires { IsFileShape shape }
{
    let Played { device: _, end } = play(rt.alloc(), script, shape, device, settings, out);
    match end {
        Ok(()) => 0,
        Err(end) => end_with(rt, end, out),
    }
}

/// The last line of a play that ended early, and its status.
fn end_with<K: Sink>(rt: &HostRuntime, end: End, out: &mut K) -> u8 {
    match end {
        End::Budget { line } => match format!(in rt.alloc(); "budget {line}\n") {
            Ok(text) => tell(out, text.as_bytes(), 9),
            Err(_) => tell(out, b"memory\n", 7),
        },
        End::Later { line: _ } => tell(out, b"later\n", 11),
        End::Refused { line } => {
            let _ = eprintln!(rt; "line {line}: a step is refused");
            tell(out, b"refused\n", 7)
        }
        End::NotOurs { rule } => match format!(in rt.alloc(); "notours {rule}\n") {
            Ok(text) => tell(out, text.as_bytes(), 3),
            Err(_) => tell(out, b"memory\n", 7),
        },
        End::DeviceFault => tell(out, b"device\n", 4),
        End::SinkFault => 6,
        End::OutOfMemory => tell(out, b"memory\n", 7),
    }
}
