//! Notes: what an attachment has found on pages, and may rely on after it has given the pages up.
//!
//! - Defined here: the kinds of notes, what each says of a view where a test tells it (`specs/Notes`, `passes`),
//!   the page whose pin it rests on (`support_of`), whether it is for good (`is_lasting`), and the rules by which
//!   it may be made from copies and from other notes (`may_note`; by what a snapshot holds, `specs/Sights`:
//!   `MayStand`, `MaySee`, `MaySeeNone`, `MaySeeNoPage`, `MaySeeBelow`).
//! - **Proved**: `Note::support` and `Note::outlasts_own_edits` give what the definitions give.
//! - **Argued**: that a note holds where its rule does, and for how long, is the matter of the laws of the
//!   crates above.
#![tactic(auto)]

mod notes;

pub use notes::{Note, Outcome};
