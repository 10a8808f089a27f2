//! A whole play.

ghost use Rattle.std.specs.Prelude.{◌≡◌};
ghost use Rattle.fbc_kinds.specs.HeaderSpelling.{IsFileShape};

use crate::answering::write;
use crate::ending::End;
use crate::file_shape::FileShape;
use crate::floor::{Floor, NoFloor};
use crate::trial::{Settings, Trial};
use fbc_files::{OpenFault, file_shapes_are_shapes};
use fbc_kinds::Shape;
use fbc_outside::{Device, Sink};
use fbc_script::{Line, Order, Script, Statement};
use std::alloc::Global;

/// The device after a play, and how the play ended.
#[derive(Debug, Drop)]
pub struct Played<D> {
    pub device: D,
    pub end: Result<(), End>,
}

/// Plays a script over the file of that shape on the device, and writes its lines.
pub fn play<D: Device, K: Sink>(
    alloc: Global,
    script: &Script,
    shape: Shape,
    device: D,
    settings: Settings,
    out: &mut K,
) -> Played<D>
    requires { IsFileShape shape }
{
    let mut trial = match open(alloc, device, shape, settings) {
        Ok(trial) => trial,
        Err(played) => return played,
    };
    for line in script.lines.items() {
        if matches!(line.order, Order::Reopen) {
            trial = match reopen(trial, line, out) {
                Ok(trial) => trial,
                Err(played) => return played,
            };
        } else if let Err(end) = trial.order(line, out) {
            return over(trial, Err(end));
        }
    }
    over(trial, Ok(()))
}

/// A play over the file of that shape, in which nobody has come.
fn open<D>(
    alloc: Global,
    device: D,
    shape: Shape,
    settings: Settings,
) -> Result<Trial<D>, Played<D>>
    requires { IsFileShape shape }
{
    file_shapes_are_shapes();
    match Floor::new(alloc, device, &shape, settings.locks) {
        Ok(floor) => Ok(Trial::new(alloc, FileShape::new(shape), settings, floor)),
        Err(NoFloor { device }) => Err(Played {
            device,
            end: Err(End::OutOfMemory),
        }),
    }
}

/// The play is over: all die.
fn over<D>(trial: Trial<D>, end: Result<(), End>) -> Played<D> {
    let mut trial = trial;
    trial.die_all();
    Played {
        device: trial.floor.into_device(),
        end,
    }
}

/// All die, and the file is opened again.
fn reopen<D: Device, K: Sink>(
    trial: Trial<D>,
    line: &Line,
    out: &mut K,
) -> Result<Trial<D>, Played<D>> {
    let alloc = trial.alloc;
    let settings = trial.settings;
    let mut shut = [false; 8];
    for k in 0..8 {
        shut[k] = trial.seats[k].is_shut;
    }
    let mut device = over(trial, Ok(())).device;
    let shape = match fbc_files::open(&mut device) {
        Ok(opened) => opened.shape,
        Err(fault) => {
            return Err(Played {
                device,
                end: Err(end_of(fault)),
            });
        }
    };
    let mut next = open(alloc, device, shape, settings)?;
    for k in 0..8 {
        next.seats[k].is_shut = shut[k];
    }
    match tell_reopened(alloc, line.number, out) {
        Ok(()) => Ok(next),
        Err(end) => Err(over(next, Err(end))),
    }
}

/// Why the file could not be opened again.
fn end_of(fault: OpenFault) -> End {
    match fault {
        OpenFault::NotOurs(rule) => End::NotOurs { rule },
        OpenFault::DeviceFault => End::DeviceFault,
    }
}

/// Writes the line that tells that the file is open again.
fn tell_reopened<K: Sink>(alloc: Global, line: u32, out: &mut K) -> Result<(), End> {
    let text = format!(in alloc; "{line} reopened\n")?;
    write(out, text.as_bytes())
}
