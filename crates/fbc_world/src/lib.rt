//! The vocabulary of histories: what the owners of one file ask, are answered and do, the journal of it, and
//! what a journal tells by replay. What a history means stands in `specs/`.
//!
//! - **Proved** of `Journal`, which is its file's shape and the list of its events, the oldest first:
//!   - `reserve` makes room, and without memory the events stay; `push` adds one event and takes no memory;
//!     `length`, below 2^63, says how many there are, and `event` gives each of them by value, as a clone
//!     that is the same event, or an error.
//!   - `kept` and `newest` answer what the file keeps of a page and its newest content, over a file of blank
//!     pages; `granted` and `alive` take no memory.
//! - **Proved** of every history over every file, legal or not:
//!   - A copy ends with the lock on its page and with its owner (`copies_end_with_their_locks`); a dead owner
//!     has no draft (`drafts_end_with_their_owners`), and a page has one draft at most
//!     (`pages_have_one_draft`).
//!   - What one owner does changes nothing of another's: no copy, pin, open transaction or life; no draft,
//!     unless it edits that page; no pair, unless it writes the high page; no request or level, unless it
//!     reaps that owner or opens the file (`others_leave_ones_own`).
//!   - The record of all that stands (`specs/World`) is in each part what that part's own definition says
//!     (`worlds_are_replays`), and a granted level is that of its request (`requests_grant_levels`).
//!   - The commands of one history are worked out as an example (`commands_of_the_example`).
//! - **Argued**: a clone of an event takes no memory, and fails only where a list of rows has as many copies as it
//!   may have.
//! - **Supposed**: of a journal a page size that a file may have and at most eight relations (`IsShape`); of
//!   `push` that there is room. For a journal an edit that does not fit changes nothing, and a failed write
//!   has not landed.
#![tactic(auto)]

mod answers;
mod asks;
mod drafts;
mod events;
mod journals;
mod laws;
mod lock_laws;
mod owners;
mod replays;

pub use answers::Answer;
pub use asks::{Ask, Cause};
pub use drafts::Draft;
pub use events::{Act, Event, LocalEvent};
pub use journals::{Journal, Recorded};
pub use laws::{
    commands_of_the_example, copies_end_with_their_locks, drafts_end_with_their_owners,
    others_leave_ones_own, pages_have_one_draft, worlds_are_replays,
};
pub use lock_laws::{requests_are_apart, requests_grant_levels};
