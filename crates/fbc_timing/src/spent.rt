//! How long a piece of work took.

use std::fmt::{Display, Formatter, Write};
use std::time::{Clock, CpuClock, Duration, Instant};
use std::{fmt, io};

/// When a piece of work began, on the clock and in processor time.
#[derive(Drop)]
pub struct Start {
    clock: Instant,
    processor: Duration,
}

/// The time that a piece of work took, on the clock and of the processor. The second does not grow
/// while others are at work.
#[derive(Drop)]
pub struct Spent {
    clock: Duration,
    processor: Duration,
}

impl Start {
    /// Now.
    pub fn now<R: Clock + CpuClock>(rt: &R) -> io::Result<Start> {
        let processor = rt.process_cpu_time()?;
        Ok(Start {
            clock: Instant::now(rt)?,
            processor,
        })
    }

    /// The time since.
    pub fn spent<R: Clock + CpuClock>(&self, rt: &R) -> io::Result<Spent> {
        let clock = self.clock.elapsed(rt)?;
        let processor = rt.process_cpu_time()?.saturating_sub(self.processor);
        Ok(Spent { clock, processor })
    }
}

impl Spent {
    /// How many of so many things were done in a second of the processor.
    pub fn rate(&self, count: u32) -> f64 {
        f64::from(count) / self.processor.as_secs_f64()
    }

    /// How many nanoseconds of the processor each of so many things took.
    pub fn each(&self, count: u32) -> f64 {
        1e9 * self.processor.as_secs_f64() / f64::from(count)
    }
}

impl Display for Spent {
    fn fmt<W: Write>(&self, f: &mut Formatter<W>) -> fmt::Result {
        let clock = self.clock.as_secs_f64();
        let processor = self.processor.as_secs_f64();
        write!(f, "{clock:.6} s, {processor:.6} s of the processor")
    }
}
