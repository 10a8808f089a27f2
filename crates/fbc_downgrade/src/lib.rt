//! Serving callbacks: what the holder of a page does when another owner asks for it.
//!
//! - **Proved**:
//!   - `serve` says by the cache alone what a callback comes to (`serves`, by `specs/Serving`): Later exactly
//!     where the page is pinned, and then it is marked; Done exactly where it is not pinned and its level is
//!     not above the one that may be kept; else the next step by which it is given up, or held in that level
//!     (`later`, `done`, `due`).
//!   - **A callback takes no more writes than there are dirty pages** among its page and those that are to be
//!     written before it (`servings_take_few_writes`). It ends with the lowering
//!     (`servings_end_with_the_lowering`).
//!   - **Callbacks are served legally** (`servings_are_legal`), and stay so through what others do in between
//!     and through grants of what the owner waits for (`servings_go_on_over_histories`).
//! - **Supposed**: the level that may be kept is none or PR; for the laws over histories, that the history is
//!   legal, the cache of the living owner fits it, and its last poll answered the callback
//!   (`specs/Histories`).
//! - Tests drive it by hand through caches and a region; no attachment uses it yet.
#![tactic(auto)]

mod laws;
mod legality;
mod serving;

pub use laws::{servings_end_with_the_lowering, servings_take_few_writes};
pub use legality::{servings_are_legal, servings_go_on_over_histories};
pub use serving::{Serving, serve};
