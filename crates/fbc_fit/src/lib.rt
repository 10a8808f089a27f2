//! The fit of a cache to a history: what the cache of an owner says of its pages is what the history says,
//! and the steps that the cache asks for are legal.
//!
//! - **What fits** (`Fits` of `specs/Fit`): of each page the request, with the level that is granted and the
//!   one that is waited for, the copy, whether its draft is the owner's, and whether it is pinned; the pairs;
//!   and for how many pages there is room. What a buffer waits for may be granted already, by the step of
//!   another.
//! - **Proved**: what a cache that fits asks for is legal.
//!   - Where a lock is due, its owner waits for nothing, has no request for the page, and has room for it
//!     (`due_locks_are_free_to_be_asked`). Whether the wait is upward no cache can know.
//!   - Reads and lowerings that are due (`due_reads_are_legal`, `due_lowerings_are_legal`), what a want gives
//!     (`wanted_writes_are_legal`, `wanted_lowerings_are_legal`), and what giving up a page gives
//!     (`given_up_pages_are_written_legally`, `given_up_pages_are_lowered_legally`).
//!   - What its owner does in it: pins (`held_pages_are_pinned_legally`), edits, as to locks, base and fit
//!     (`edits_are_made_under_locks`), and the pairs that an edit needs (`needed_pairs_are_legal`). What an
//!     edit leans on is no matter of the cache.
//! - **Proved**: what keeps the fit.
//!   - A cache that holds nothing fits where its owner comes (`new_caches_fit`); others' events leave the fit
//!     (`others_leave_the_fit`), and so do grants before the cache learns of them (`late_grants_fit`).
//!   - What the cache takes: `granted_locks_fit`, `queued_locks_fit`, `looks_that_grant_fit`,
//!     `withdrawals_fit`, `other_withdrawals_leave_the_fit`, `read_pages_fit`, `written_pages_fit`,
//!     `lowered_pages_fit`, `other_acts_leave_the_fit`.
//!   - What its owner does in it: `pinned_pages_fit`, `unpinned_pages_fit`, `uses_and_marks_are_no_events`,
//!     `recorded_pairs_fit`, `edited_pages_fit`.
//! - **Proved**: by one whole step (`IsStepOf` of `fbc_region`), with the grants that follow it.
//!   - One law for each kind of answer: `granted_lock_steps_fit`, `queued_lock_steps_fit`,
//!     `refused_lock_steps_fit`, `deadlock_steps_fit`, `look_steps_fit`, `withdrawal_steps_fit`,
//!     `lowering_steps_fit`, `read_steps_fit`, `write_steps_fit`, `other_steps_fit`; and one over any ask and
//!     answer that the owner lives through (`taken_answers_fit`).
//!   - The image of a page that was read over a lawful journal shows what is kept
//!     (`images_of_reads_show_what_is_kept`).
//! - **Proved**: what is known of any lock (`KnowsLock` of `specs/KnownLocks`), also of one on a number or a
//!   relation, and also where its grant comes late: `others_leave_known_locks`,
//!   `quiet_acts_leave_known_locks`, `late_grants_leave_known_locks`, `known_locks_are_learnt`,
//!   `asked_locks_are_known`, `lowered_locks_are_known`, `withdrawn_locks_are_known`,
//!   `refused_asks_leave_known_locks`.
//! - **Supposed** where an answer is taken: at a look, that somebody is in the way of what its owner waits for
//!   (`IsHeldUp`); at a withdrawal, that who waits for no page has no buffer that waits (`WaitsForOne`).
//! - **Supposed**, each where a law needs it: the history is legal; the owner waits for no number and no
//!   relation where it asks for a page; there is a cause to write and a reason to lower; a format carries the
//!   number of its page.
//! - A read for which there was no memory does not keep the fit (docs/DECISIONS.md). The functions do nothing
//!   when they are run, and are what `fbc_downgrade` cites.
#![tactic(auto)]

mod asking;
mod giving;
mod keeping;
mod known;
mod learning;
mod local;
mod steps;

pub use asking::{
    due_locks_are_free_to_be_asked, due_reads_are_legal, edits_are_made_under_locks,
    held_pages_are_pinned_legally, needed_pairs_are_legal,
};
pub use giving::{
    due_lowerings_are_legal, given_up_pages_are_lowered_legally,
    given_up_pages_are_written_legally, wanted_lowerings_are_legal, wanted_writes_are_legal,
};
pub use keeping::{
    late_grants_fit, lowered_pages_fit, new_caches_fit, others_leave_the_fit, written_pages_fit,
};
pub use known::{
    asked_locks_are_known, known_locks_are_learnt, late_grants_leave_known_locks,
    lowered_locks_are_known, others_leave_known_locks, quiet_acts_leave_known_locks,
    refused_asks_leave_known_locks, withdrawn_locks_are_known,
};
pub use learning::{
    granted_locks_fit, looks_that_grant_fit, other_acts_leave_the_fit,
    other_withdrawals_leave_the_fit, queued_locks_fit, read_pages_fit, withdrawals_fit,
};
pub use local::{
    edited_pages_fit, pinned_pages_fit, recorded_pairs_fit, unpinned_pages_fit,
    uses_and_marks_are_no_events,
};
pub use steps::{
    deadlock_steps_fit, granted_lock_steps_fit, images_of_reads_show_what_is_kept, look_steps_fit,
    lowering_steps_fit, other_steps_fit, queued_lock_steps_fit, read_steps_fit,
    refused_lock_steps_fit, taken_answers_fit, withdrawal_steps_fit, write_steps_fit,
};
