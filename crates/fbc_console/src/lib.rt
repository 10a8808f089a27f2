//! The top call: it carries out the words of a command line over the file on a device, and ends with a
//! status.
//!
//! - **Proved** of `console`:
//!   - **How it ends** (`ended`, by `HasEnded` of `specs/Ending`): each status only where its row of
//!     docs/STATUSES.md says, with what stands on the device and which bytes the sink may have taken. A call
//!     that ends with `Usage`, `NotOurs`, `SourceLong`, `Script` or `Later` leaves the device as it was.
//!   - **The play theorem, for one transaction** (a part of `ended`, by `specs/PlayTheorem`): where `play`
//!     ends with `Ok`, attach is answered `ok`, each further line is the reply of the one-thread machine that
//!     began without rows, and the file is recognised by its header, sound, and means that machine. An empty
//!     script tells nothing and leaves the file.
//!   - **Every other end of a play** (`IsPartOfPlay`): the lines told are a first part of the machine's, and
//!     then the line of the status; commit is answered only where it stands; the device has what it held or
//!     the first of the commit's writes, and that file is sound, with nothing of the transaction in it or
//!     all.
//!   - **`create`** (`specs/Making`): `Occupied` exactly where bytes stand; after `Ok` the bytes are the new
//!     file for its words, sound and without rows; after a failure the first of its writes stand, the header
//!     last of all.
//!   - **`validate`** (`specs/Checking`): a report that was told whole is byte for byte the text of what the
//!     file has, or its JSON; `Ok` then comes exactly where no page is damaged, and `Damaged` where one is.
//!     `Ok` says that the file is sound, and `Damaged` that it is not (`sound`, `unsound`). The device holds
//!     what it held.
//!   - **Faults** (`device`, `source`, `sink`): each only where the count of that object
//!     rose.
//!   - **Reads and writes** (`unwritten`, `refused_read`, `refused_unwritten`): words that are neither `play`
//!     nor those of a new file make no write, whether they are `validate` or no command. A call that ends with
//!     `NotOurs` makes one read and no write.
//!   - **The source** (`bounded`, `read_out`, `unread`): at most 4,194,305 bytes are taken of it; none is
//!     left where `play` ends with `Ok`; other words take none.
//!   - **Completeness** (`plays`, `makes`, `checks`): where no count of faults rose, a plain play, make or
//!     check ends with its own status, or with want of memory (`specs/Completing`).
//! - **Supposed**: the device reaches at least 262,144 and at most 2^40 bytes. What is said of bytes is said
//!   of a device and a source that tell them. A play goes over the file that `create 1024 t:10` makes; all
//!   else is `Later`.
//! - Of other files and scripts, several attachments, deaths, page caches and threads nothing is said yet.
#![tactic(auto)]

mod asking;
mod checking;
mod images;
mod laws;
mod making;
mod opening;
mod playing;
mod reading;
mod statuses;
mod store;
mod top_call;
mod transaction;
mod writes;

pub use laws::{
    a_committed_file_means_the_machine, a_committed_transaction_is_a_play,
    a_part_of_a_commit_stands_as_a_whole, a_transaction_stands_as_a_whole,
    an_untouched_file_is_an_empty_play, answers_are_the_machines, the_fresh_file_means_no_rows,
};
pub use statuses::Status;
pub use top_call::{Ended, console, end};
