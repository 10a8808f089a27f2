//! Soundness of histories: whatever legal events came, every view that a closed cut gives is sound, and
//! numbers, marks, stamps and names are as the later proofs want them.
//!
//! - **Proved**:
//!   - After every legal history over a sound file of its shape all stands as it is to stand
//!     (`legal_histories_are_whole`, by `IsWhole` of `specs/Whole`): at the beginning
//!     (`first_moments_are_whole`), and by each event (`events_keep_all_whole`).
//!   - Each view that sees an edit of the header, of a page inventory or of a pointer page, or a format,
//!     stays sound, reads as before, and has no smaller next number (`KeepsViews` of `specs/Seen`;
//!     `set_next_keeps_views` and its like). Such edits add no link (`edits_of_no_cells_make_no_links`).
//!   - Where all is in order, each of the twelve edits leaves the views sound that see it
//!     (`edits_keep_views_sound_in_order`).
//! - **Supposed**: the file under the history is a sound one of the shape.
//! - The functions do nothing when they are run; the crates above cite them.
#![tactic(auto)]

mod headers;
mod histories;
mod inventories;
mod namings;
mod seen;

pub use headers::{
    add_inventory_keeps_views, add_pointer_keeps_views, add_tip_keeps_views, set_next_keeps_views,
};
pub use histories::{
    edits_keep_views_sound_in_order, edits_of_no_cells_make_no_links, events_keep_all_whole,
    first_moments_are_whole, first_stamps_are_of_the_file, legal_histories_are_whole,
};
pub use inventories::{format_keeps_views, free_page_keeps_views, take_page_keeps_views};
pub use namings::{name_keeps_views, unname_keeps_views};
pub use seen::kept_views_are_sound;
