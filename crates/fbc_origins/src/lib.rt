//! Where the cells of pages come from: what their stamps tell of the file, of the newest pages and of every
//! view, after every legal history; and that edits of cells keep views sound.
//!
//! - **Proved**:
//!   - What stamps tell is one record (`IsOriginal` of `specs/Origins`), and each legal event keeps it
//!     (`events_keep_origins`). Stamps are numbers of events before (`stamps_are_past`), what the file has
//!     taken in the newest pages have (`edits_stay`), and a cell with one stamp in both holds one version,
//!     which may only have lost its link (`cells_keep_versions`).
//!   - Each view that sees a version put, or a cell cleared, allows it (`puts_are_allowed`,
//!     `clears_are_allowed`), and stays sound (`put_cell_keeps_views_sound`, `clear_cell_keeps_views_sound`).
//!   - Rows are named: where a view names a data page in which it shows a settled top, the file names that
//!     page too; of an open number the file does, or its owner's drafts (`events_keep_rows_named`). So every
//!     view names the settled rows of the newest pages (`named_rows_are_in_every_view`).
//!   - No view that has the edit which made a back value unreached reaches it (`unlinked_values_are_gone`).
//!   - A link that only a draft has lost was cut of a settled version (`events_keep_cuts_settled`,
//!     `cuts_are_settled_in_views`), and settled numbers stay so (`settled_numbers_stay_settled`).
//! - **Supposed**: all is in order before the event (`IsInOrder` of `specs/Owed`): views sound, numbers and
//!   stamps as they are to be; and edits of what is no cell add no link. `fbc_soundness` shows both.
//! - The functions do nothing when they are run; `fbc_soundness` cites them, and `fbc_simulation` the lemmas
//!   behind them, the files of `proofs/` that are `pub`.
#![tactic(auto)]

mod cuts;
mod puts;
mod rows;
mod stamps;

pub use cuts::{
    cuts_are_settled_in_views, events_keep_cuts_settled, first_cuts_are_settled,
    settled_numbers_stay_settled,
};
pub use puts::{
    clear_cell_keeps_views_sound, clears_are_allowed, put_cell_keeps_views_sound, puts_are_allowed,
};
pub use rows::{
    events_keep_origins, events_keep_rows_named, first_rows_are_named, first_rows_stand,
    named_rows_are_in_every_view, unlinked_values_are_gone,
};
pub use stamps::{cells_keep_versions, edits_stay, stamps_are_past};
