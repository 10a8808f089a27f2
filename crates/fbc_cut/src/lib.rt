//! The core: what every closed cut of a history holds, after every legal history over a sound file. It is
//! sound, and means what the one-thread machine does; and the newest pages mean that machine.
//!
//! - **Proved**, for every shape, every sound file of it and every legal history over it, with every kind of
//!   event, both outcomes of each failed write, and deaths anywhere:
//!   - **Coherence**: what an owner may use of a page is its newest content (`copies_are_newest`; over any
//!     file).
//!   - **Every cut is sound**: whichever drafts have reached the file, each with all that are to be written
//!     before it (`every_cut_is_sound`). So the file itself is, at each moment (`kept_pages_are_sound`).
//!   - **Every cut means the machine** after the history's commands, with the commits done whose marks stand
//!     in drafts of the cut, and all other open transactions rolled back (`every_cut_means_the_machine`; of
//!     the file itself `kept_pages_mean_the_machine`).
//!   - **The newest pages mean the machine**, the transactions of living owners open
//!     (`newest_pages_mean_the_machine`).
//!   - **The commands are a run**: each may come where it stands (`commands_are_a_run`).
//! - **Supposed**: the history is legal. That it comes of statements, and that attachments keep to the
//!   guards, is not said here.
//! - The functions do nothing when they are run, and are what the crates above cite.
#![tactic(auto)]

mod laws;

pub use fbc_closed_cuts::{is_closed, view};
pub use laws::{
    commands_are_a_run, copies_are_newest, every_cut_is_sound, every_cut_means_the_machine,
    kept_pages_are_sound, kept_pages_mean_the_machine, newest_pages_mean_the_machine,
};
