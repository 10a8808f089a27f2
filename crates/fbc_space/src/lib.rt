//! Free pages: how the body of a statement finds one, uses it, and makes a data page of it. Where a page is missing it
//! answers which, and it is called again when that was got. A search goes on where it stands.
//!
//! - **Proved**: what is called between two steps is a run of the desk's calls (`goes`), and besides
//!   - `find_free` goes through the page inventories in their order, past the header where it counts the next one and
//!     past each that shows no free page below the limit, and is stopped exactly where a page may not be used yet, where
//!     a page stands elsewhere than is due, where the header does not count the next one, where there is a free page,
//!     or where there are no more; of the free pages it answers the least that is not passed over, or the least of all
//!     where every one is passed over; nothing but the order in which pages were used is another; and it comes to one
//!     place and one answer (`searches_are_exact`);
//!   - `hold_free` uses the page inventory over the page and then the page, and tells exactly whether it is free still;
//!   - `try_take` makes the edits that are due, each once and in their order, and answers the next write where one of
//!     them has to wait for it; an edit that the desk refuses ends it;
//!   - `Passed` is a list of at most 16 pages.
//! - **Supposed**: nothing. What an edit needs is tested by the desk.
#![tactic(auto)]

mod finding;
mod free_pages;
mod free_steps;
mod laws;
mod needs;
mod passed;
mod taking_pages;

pub use finding::{Found, FreeSearch, find_free};
pub use free_steps::{FreeStep, hold_free};
pub use laws::searches_are_exact;
pub use passed::Passed;
pub use taking_pages::{TakeStep, Taking, try_take};
