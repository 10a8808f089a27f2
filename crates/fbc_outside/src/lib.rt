//! The outside of the store: the device that keeps its bytes, the source of its script, the sink of its lines
//! and the gate of its threads, as traits, with what each call owes to the counts of faults.
//!
//! A program runs over the thin edge (`FileDevice`, `StdSource`, `StdSink`, `NoGate`), of whose bytes nothing
//! is told. Tests and laws run over values in memory (`MemoryDevice`, `SteadyDevice`, `MemorySource`,
//! `MemorySink`), whose bytes and failures are exact.
//!
//! - **Proved**:
//!   - A device, a source and a sink mean what their traits say: each fact about bytes, counts and faults is
//!     a clause of `Device`, `Source` and `Sink`. A call is answered Failed only where its object's count of
//!     faults rose in it (`cause`).
//!   - The values in memory keep these clauses and tell their bytes. `MemoryDevice` fails exactly the calls
//!     that it is given, and says of each failed write whether it landed.
//!   - The edge keeps the same clauses, and tells no bytes. After a call that the machine carried out in part
//!     or interrupted it goes on, until the piece is whole, the file is at its end, or the machine fails: so
//!     much is proved of its two loops over a file that tells its bytes (`raw_file`).
//!   - `write_all` gives a sink the whole text, or where it fails a first part of it.
//! - **Supposed**: a device in memory is given no more bytes than it reaches, and a gate is passed by the
//!   numbers 1 to 8 alone.
//! - **Argued**: that a file, the standard input and the standard output do what their names say.
#![tactic(auto)]

mod buffer;
mod device;
mod edge;
mod fault;
mod gate;
mod memory_device;
mod memory_streams;
mod raw_file;
mod steady_device;
mod stream;

pub use device::Device;
pub use edge::{FILE_REACH, FileDevice, StdSink, StdSource};
pub use fault::{CallKind, Fail, Failed};
pub use gate::{Gate, NoGate, StepName};
pub use memory_device::MemoryDevice;
pub use memory_streams::{MemorySink, MemorySource};
pub use steady_device::SteadyDevice;
pub use stream::{Sink, Source, write_all};
