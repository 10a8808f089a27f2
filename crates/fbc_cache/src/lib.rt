//! The page cache of one attachment: the pages that it holds, decoded, with their locks as it has learnt
//! them, and the order in which they are to be written. It asks for one step at a time and takes the answer.
//!
//! Contracts see it as a `CacheState` (`specs/Cache`): the shape of the file, the buffers in the order of
//! their last use, the pairs of pages, and the pointer pages of each relation as the header last showed them.
//!
//! - **Proved**:
//!   - **What a cache is** (`IsCache`, kept by every call): held pages have PR or EX, and one page at most is
//!     waited for; a copy is of a held page and within its limits; a dirty page has a copy and EX; a pinned
//!     page is held; each pair is of a dirty page with one in EX; each page has one buffer, and there are
//!     never more pages than buffers.
//!   - `want` answers Here exactly where the page may be used so, and else gives the one step that is due
//!     first, and changes nothing (`here`, `want`, `same`). That step is due (`due`, by `specs/Wants`): no
//!     write before another, no lowering of what is dirty, pinned or to be written before, no ask without a
//!     free buffer.
//!   - `take` takes the answer to an ask (`taken`, by `specs/Takes`). Damaged comes exactly where bytes were
//!     read that spell no page, with the first rule that they break (`exact`). A step that was not due, and
//!     an error, leave the cache (`err`).
//!   - `edit` relates the dirty ones of the high pages to the page in their order; where the page is to be
//!     written before one of them, WriteFirst names it and nothing is edited, and else the edit is made
//!     (`edited`).
//!   - `step_to_give_up` gives the next step by which a page is given up, or held in a lower level, for any
//!     cause: writes of the least page before which none is to be written, then the lowering (`step`, `due`).
//!   - **A pinned page stays** through every answer, in its level and with its copy (`pinned_pages_stay`).
//!   - `pin`, `unpin`, `touch` and `mark_blocking` do what `specs/Use` says, and the readers answer what
//!     `specs/Readers` says of the copy; of a page that may not be used, what an empty one says.
//!   - `victim` answers, of the pages that are not in use, the one whose last use is longest ago, `dirty` the next page in the order of writes
//!     (`specs/Edits`), and `next_pinned`, `next_held` and `first_empty` the least page in use, the least page
//!     held and the least empty cell, none exactly where there is none (`specs/Least`).
//!   - No call hands out a page or a cell: a reader tells one field, and `states` lends the states of one transaction
//!     inventory page.
//!   - `spell` writes bytes that spell the copy, over all that stood in the buffer (`spelled`). `shape` and
//!     `pairs` hand out the shape and the pairs of the order.
//! - **Supposed**: the shape is one that a recognised file has; a page that is edited is pinned and in EX and
//!   the edit fits it (`may_edit`); a page that is wanted may be so (`may_want`); bytes read are a page's; a page
//!   that is spelled has a copy (`has_copy`), and a buffer has the size of a page or room for the value.
//!   That a format carries the number of its page is a matter of who edits.
//! - An attachment uses it through its desk (`fbc_desk`), and tests drive it by hand besides.
#![tactic(auto)]

mod cache;
mod dirt;
mod due;
mod edit_conditions;
mod edits;
mod faults;
mod giving;
mod held;
mod needs;
mod readers;
mod remembered;
mod spelled;
mod staying;
mod takes;
mod versions;
mod wants;

pub use cache::Cache;
pub use edits::Edited;
pub use faults::CacheFault;
pub use needs::{Need, Want};
pub use readers::Place;
pub use staying::pinned_pages_stay;
