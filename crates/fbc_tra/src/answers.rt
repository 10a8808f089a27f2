//! Which answers a lock takes that is on its way.

ghost use Rattle.std.specs.Prelude.{◌≡◌};
ghost use Rattle.fbc_tra.specs.Taken.{taken_if_asked};

use fbc_reserve::Waiting;
use fbc_world::Answer;

/// The lock takes the answer, if it is one to what is asked for it.
pub(crate) fn take_if_asked(waiting: &mut Waiting, answer: &Answer)
    ensures { waiting.new ≡ taken_if_asked answer.now waiting.old }
{
    if waiting.is_answered_by(answer) {
        waiting.take(answer);
    }
}
