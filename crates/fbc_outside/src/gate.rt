//! The gate that a thread passes before each named step.
ghost use Rattle.std.specs.Prelude.{◌≤◌};

/// The names of steps, as a trap or a gate calls them. A step may bear several names, or none.
#[derive(Clone, Copy, Debug, PartialEq, Eq)]
pub enum StepName {
    Ask,
    Look,
    Lower,
    Read,
    Write,
    Callback,
    Mark,
    Poll,
    Answer,
}

/// What a thread calls before it enters the turn for a step: once for each name that the step
/// bears, in the order of `StepName`. For a step without a name it is not called.
pub trait Gate {
    /// Lets the attachment of number `who`, 1 to 8, pass to the step, or holds it for a while.
    fn pass(&self, who: u32, step: StepName)
        requires { (1 ≤ who) × (who ≤ 8) };
}

/// The gate that holds nobody.
#[derive(Clone, Copy, Debug)]
pub struct NoGate;

impl Gate for NoGate {
    fn pass(&self, who: u32, step: StepName) {
        let _ = (who, step);
    }
}
