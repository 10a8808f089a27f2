//! One attachment: its statements, each from its words to its answer, done step by step over its own desk. So far it attaches,
//! begins, inserts, reads and commits.
//!
//! An attachment is given a statement (`give`), tells the step that it takes next (`next`), and takes the answer (`take`). Before
//! a statement, and while it waits, it asks whether somebody waits for one of its pages, and serves who does; when it is idle, it
//! does so where it was called (`called`). Contracts see it as an `AttachmentState` (`specs/Attachment`).
//!
//! - **Proved**:
//!   - `give` is Busy exactly where a statement is unanswered, and leaves the desk. `next` tells exactly what comes next (`moves`):
//!     Idle exactly where no step is due, no statement is unanswered and it was not called since its last poll (`idle`); Die exactly
//!     where the step that is due is the one that the trap names (`die`); else the answer, or the ask of that step (`asked`,
//!     `answered`). For a write the image spells the page as the desk has it (`spelled`). It leaves the desk, and `local` hands out
//!     what that has not sent yet. `next` and `bears` take no memory.
//!   - A page that `next` lets write is below the limit of the file, whatever the file holds (`below`).
//!   - An answer is taken only where a step is due, with an image of the size of a page (`may`, `untaken`). The desk as it stood
//!     then takes it, and what follows is a run of its calls in which transactions begin and are over (`runs`, by `specs/Behind`
//!     and `specs/Running`). Bytes that spell no page are not taken, and after a write that failed the desk is left. Who the
//!     attachment is stays, and its trap comes nearer by a step that bears its name (`same`).
//!   - A callback on a page in use, or on one that is held in no higher level than may be kept, is passed over (`kept`); any other
//!     is served by the next step that gives the page up (`due`).
//!   - `is_built` tells which statements can be done so far.
//!   - `refusal_of` tells whether a statement is refused by its own words, and how, in the order of the refusals
//!     (`order`): each comes exactly where it is said to (`no_relation`, `no_transaction`, `already_open`,
//!     `too_long`). `relation_number` gives the number of a relation, which is its place among the
//!     names of the file's shape.
//!   - `bears` tells exactly which names a step bears.
//! - **Supposed**: the shape is one that a file may have (`IsFileShape`), and an answer is one to the step that was due, which is
//!   tested for polls alone. An image of another size than a page ends with an error.
//! - **Argued**: that steps come in the order in which they are due, and that none of them is refused, is a matter of tests
//!   so far, and not of contracts. A statement that is not built, or needs a further page inventory, transaction inventory or
//!   pointer page, ends with an error (`is_built`, `is_unbuilt`).
//! - Plays of the tests use it, and no command of the program yet.
#![tactic(auto)]

mod attachment;
mod bodies;
mod due;
mod errands;
mod getting;
mod moves;
mod polls;
mod refusals;
mod step_names;
mod taking;

pub use attachment::{Attachment, Busy, Move};
pub use bodies::is_built;
pub use refusals::{Refusal, refusal_of, relation_number};
pub use step_names::bears;
