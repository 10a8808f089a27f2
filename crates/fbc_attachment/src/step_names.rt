//! The names that a step bears.

ghost use Rattle.std.specs.Prelude.{◌≡◌};
ghost use Rattle.fbc_attachment.specs.StepNames as spec;

use fbc_outside::StepName;
use fbc_world::{Ask, Cause};

/// Whether the step of this ask bears the name. `is_tip` says of a write whether its page is a
/// transaction inventory page: its write by commit is the mark.
pub fn bears(ask: &Ask, is_tip: bool, name: StepName) -> bool
    ensures { result ≡ spec.bears ask.now is_tip name }
{
    match ask {
        Ask::Lock { .. } => name == StepName::Ask,
        Ask::Look => name == StepName::Look,
        Ask::Lower { .. } => name == StepName::Lower,
        Ask::Read { .. } => name == StepName::Read,
        Ask::Write { page: _, cause } => write_bears(*cause, is_tip, name),
        Ask::Poll { .. } => name == StepName::Poll,
        Ask::Note { .. } => name == StepName::Answer,
        Ask::Enter { .. } | Ask::Leave | Ask::Withdraw | Ask::Least => false,
    }
}

/// Whether a write with this cause bears the name.
fn write_bears(cause: Cause, is_tip: bool, name: StepName) -> bool
    ensures { result ≡ spec.write_bears cause is_tip name }
{
    match (name, cause) {
        (StepName::Write, _) | (StepName::Callback, Cause::CallbackOf { .. }) => true,
        (StepName::Mark, Cause::Commit) => is_tip,
        _ => false,
    }
}
