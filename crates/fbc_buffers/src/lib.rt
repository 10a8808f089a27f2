//! The buffers of one attachment: for each page that it holds or waits for the level, the copy, and whether
//! the page is pinned or dirty, in the order of their last use.
//!
//! - **Proved**:
//!   - Each page has one buffer at most, and there are never more than there is room for. Each call changes
//!     the list as its definition says (`specs/Holding`). No call but `new` takes memory.
//!   - `victim` answers the page of the first buffer that is not pinned (`victim_gives_way`); where fewer are
//!     pinned than are in use there is one (`victim_is_there`).
//!   - What is found of a page after each change (`changes_are_found`, `removed_is_gone`, `added_is_found`,
//!     `touched_is_found`).
//! - **Supposed**: a page that is added has no buffer, and there is room for it.
#![tactic(auto)]

mod buffers;
mod changes;
mod holding;
mod laws;

pub use buffers::Buffer;
pub use holding::Buffers;
pub use laws::{
    added_is_found, changes_are_found, found_is_of_the_page, removed_is_gone, touched_is_found,
    victim_gives_way, victim_is_there,
};
