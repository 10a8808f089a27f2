//! Reading versions: which version of a row a snapshot shows, found by the pages at hand.
//!
//! `try_read` is the body of the statement that reads a row. It goes over the desk from stage to stage (`ReadPart`):
//! the slot that names the row's data page, that page, the row's own cell, and down the versions that stand behind it.
//! Where a page is missing it says so, stays where it stands, and goes on from there when it is called again.
//!
//! Contracts go by what the cache shows (`specs/Showing`): the shape of the file, the pointer pages that are known,
//! and the copies at hand. No call of this crate changes any of that (`same`), so that all clauses of one call speak
//! of the same copies.
//!
//! - **Proved**, of `try_read` (`specs/Reading`):
//!   - The read goes on from its old stage to its new one as the copies lead it, and there it comes to its answer
//!     (`comes`). A page is missed exactly where it is one that the file may have and no copy of it is at hand. What is
//!     seen is told by the row's own cell, or by the version where the way down ends: one that the snapshot holds, or
//!     the last of the chain.
//!   - Damage is a page past those that the file may have; a pointer page that stands elsewhere than is due; a data page
//!     that stands elsewhere and is named still; or the page of a version whose chain leads to no older value of the
//!     relation, of a lower number.
//!   - A pointer page is waited for; a data page exactly where it may be so beside the pages in use (`waits`).
//!   - The page of the version where the read stands is in use until the page below is: where it comes to no end, it
//!     still is (`stands`). A read leaves no page in use that was not so before, but for that one, the page below where
//!     the chain breaks, and the row's own page where no newest version stands in its cell; and it leaves the page from
//!     which it went on (`left`).
//!   - What is done between two steps is a run of the desk's calls (`goes`). It takes no memory (`never`), and it ends:
//!     numbers fall on the way down.
//!   - `row_place` tells where a row stands.
//! - **Supposed**: nothing. A stage that no call of `try_read` left is answered by the copies as well, where a page
//!   without a copy shows what an empty one does.
//! - **Argued**: that what the copies tell is what the transaction is to see, also while others go on, is a matter of
//!   laws that are not there yet.
//! - `fbc_attachment` reads rows by it.
#![tactic(auto)]

mod pages;
mod parts;
mod places;
mod reading;
mod slots;
mod telling;
mod walking;

pub use parts::{ReadPart, ReadStep};
pub use places::{RowPlace, row_place};
pub use reading::try_read;
