//! What edits of pages do to a view of a file: laws of one view, before and after the edit of one of its
//! pages. They know no history, owner or lock. This crate has the edits of headers, page inventories and
//! pointer pages, and formats.
//!
//! - **Proved**, one function for each edit (`named_pages_keep_views` and its like):
//!   - The view stays sound (`sound`), and one of a file of its shape (`edits_keep_shapes`, for all twelve
//!     edits).
//!   - All chains and states are the same, there is no link more, and lost cells stay lost (`alike`). The
//!     view means the same, whatever transactions are open (`meaning`); of a raised next number `reads_alike`
//!     of `fbc_meanings` says what is left.
//!   - A page that is named is reached where the page that names it is (`reached`), and one that is named no
//!     more is not (`unreached`).
//!   - Where its page inventory is reached, a page that is taken and not reached is lost (`taken`), and one
//!     that is freed is lost no more (`found`). Every other lost page stays lost (`lost`).
//! - **Supposed**: the view is sound, of a file of the shape, and shows what the edit wants (`IsAllowedEdit`
//!   of `specs/Allowed`). That a legal history gives it this is shown in `fbc_closed_cuts` and above.
//! - The functions do nothing when they are run. The crates above cite the lemmas behind them, the files of
//!   `proofs/` that are `pub`.
#![tactic(auto)]

mod headers;
mod inventories;
mod namings;
mod shapes;

pub use headers::{
    added_inventories_keep_views, added_pointers_keep_views, added_tips_keep_views,
    raised_numbers_keep_views,
};
pub use inventories::{formats_keep_views, freed_pages_keep_views, taken_pages_keep_views};
pub use namings::{named_pages_keep_views, unnamed_pages_keep_views};
pub use shapes::edits_keep_shapes;
