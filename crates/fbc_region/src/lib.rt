//! The shared world of all attachments: the lock table, the census of the living, the device and the journal
//! behind one call, `perform`, which is one atomic step.
//!
//! - **Proved**:
//!   - `Region::perform` answers what the lock table, the circles and the callbacks say, and adds to the
//!     journal exactly the owner's local events, its own, and the grants that it causes, in their order
//!     (`step`, by `specs/Stepping`).
//!   - A step that was reserved finds its room in the journal, and has no answer for want of memory
//!     (`reserved`). A read is one read of the device, a write one write, and no other step calls it
//!     (`reads`, `writes`, `pages`).
//!   - `ReadFault` and `WriteFault` come only where the device's count of faults rose (`device`, by
//!     `BlamesDevice`), and a failed write is its owner's death in the same step. `die` is a death between two
//!     steps.
//!   - **Every call keeps a journal lawful** (`legal` of `perform`, `die` and `new`, by `IsLawfulOver` of
//!     `specs/Lawful`): legal over its file, with the pages that the device's bytes spell. Between two calls no
//!     ask still waits for the grant that follows it at once: a chronicle never ends so (`specs/Kept`), and
//!     nobody owes it. Of journals alone: `steps_keep_journals_legal`, `deaths_keep_journals_legal`,
//!     `openings_keep_journals_legal`; an empty one is lawful (`empty_journals_are_lawful`).
//!   - An ask for a page is never answered with a circle, where its owner waits for nothing, as `perform`
//!     demands (`page_asks_meet_no_circle`).
//!   - **The laws of legal histories hold of such a journal** over a sound file: `journals_are_coherent`,
//!     `cuts_of_journals_are_sound`, `cuts_of_journals_mean_the_machine`,
//!     `newest_pages_of_journals_mean_the_machine`.
//!   - Who is alive stays so through a step, but by leaving and by a write that fails
//!     (`steps_leave_owners_alive`).
//!   - **What a step is behind a history**, for those that know no journal (`IsStepOf` of `specs/Steps`): the
//!     owner's local events, its own event, by what it asked and was answered, and the grants that follow it.
//!     Each step of a journal is one (`performed_steps_are_steps`), and nothing but grants follows the own
//!     event (`grants_alone_follow_acts`).
//!   - **What was read is what is kept**: the bytes that a read leaves show the page that the device's bytes
//!     show, and over a lawful journal the one that the file keeps; they break a rule only where there is none
//!     (`read_pages_are_those_kept`, `read_pages_are_those_of_the_journal`). A device of whole pages stays one
//!     (`steps_keep_whole_pages`).
//!   - Between two calls the lock table is what the journal leads to, at most eight owners are alive, and
//!     each request tells whether its owner lives (`specs/Kept`). The census beside the journal counts the
//!     owners that came, and has a place for each that is alive, with its name (`specs/Census`).
//!   - `may_perform` tells exactly whether a step may be taken, `alive` who is alive, and `owners` how many
//!     came; none of them takes memory.
//! - **Supposed**:
//!   - A step may be taken, was reserved, and has at most 64 local
//!     events and a buffer of a page; who dies is alive; a region begins with a journal of which nobody is
//!     alive.
//!   - For a lawful journal, that the local events and the step's own meet their guards, and that the image
//!     of a write spells the writer's draft (`MeetsStep`). The reaps and grants of a step meet theirs by
//!     themselves.
//! - **Argued**: a reserved step takes no memory, and no call goes through the journal.
//! - Besides tests and benchmarks nothing uses the region yet.
#![tactic(auto)]

mod asks;
mod census;
mod chronicles;
mod conditions;
mod grants;
mod journals;
mod laws;
mod ledgers;
mod page_laws;
mod pages;
mod regions;
mod steps_laws;

pub use chronicles::Chronicle;
pub use journals::{
    cuts_of_journals_are_sound, cuts_of_journals_mean_the_machine, journals_are_coherent,
    newest_pages_of_journals_mean_the_machine,
};
pub use laws::{
    deaths_keep_journals_legal, empty_journals_are_lawful, openings_keep_journals_legal,
    page_asks_meet_no_circle, steps_keep_journals_legal, steps_leave_owners_alive,
};
pub use page_laws::{
    read_pages_are_those_kept, read_pages_are_those_of_the_journal, steps_keep_whole_pages,
};
pub use regions::{NoRegion, Region};
pub use steps_laws::{grants_alone_follow_acts, performed_steps_are_steps};
