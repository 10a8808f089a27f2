//! Legal histories of every kind: examples in which each kind of event, and each edit, occurs.
//!
//! - **Proved**: no guard of `fbc_legal` is empty.
//!   - The six small files over which the histories begin are sound and have whole pages
//!     (`the_files_are_sound`).
//!   - Each kind of event occurs in a legal history over one of them (`every_kind_of_event_occurs`, by
//!     `specs/Kinds`), and so does each form of an edit (`every_form_of_edit_occurs`, by `specs/Forms`).
//!   - The histories by groups: `a_data_page_comes_and_goes`, `the_header_grows`, `a_transaction_begins`,
//!     `a_row_is_committed`, `a_first_row_is_committed`, `a_row_is_rolled_back`, `old_versions_go`,
//!     `owners_wait`, `asks_are_answered`, `the_dead_are_reaped`, `reads_and_writes_fail`,
//!     `pages_are_written`, `locks_are_given_up`.
//!   - Histories in which a guard that is too strong would show, each with what makes it one: a swept row is
//!     updated (`a_swept_row_is_updated`); versions on another page than their row's are cut and cleared
//!     (`versions_on_another_page_go`); a row names a draft of another page
//!     (`a_row_names_a_draft_of_another_page`); a page is freed, and one is made, that the file names still
//!     (`a_page_is_freed_before_its_name_is_gone`, `a_page_is_made_beside_a_new_pointer_page`); a dead owner's
//!     number is marked beside an open transaction (`a_dead_owner_is_outlived`); a file is opened again
//!     (`a_file_is_opened_again`).
//!   - Nine histories are not legal, among them a mark before its data page, a write before that of its high
//!     page, a page granted twice and a living owner that is reaped (`the_guards_refuse`, by
//!     `specs/Refused`).
//! - That a guard can be met in one history does not say that it is met wherever an attachment wants it. The
//!   functions do nothing when they are run, and no crate stands on them.
#![tactic(auto)]

mod clearing;
mod files;
mod kinds;
mod owners;
mod pages;
mod refusals;
mod rows;
mod spread;
mod survivors;
mod updates;
mod writing;

pub use clearing::old_versions_go;
pub use files::the_files_are_sound;
pub use kinds::{every_form_of_edit_occurs, every_kind_of_event_occurs};
pub use owners::{asks_are_answered, owners_wait, reads_and_writes_fail, the_dead_are_reaped};
pub use pages::{
    a_data_page_comes_and_goes, a_page_is_freed_before_its_name_is_gone,
    a_page_is_made_beside_a_new_pointer_page, the_header_grows,
};
pub use refusals::the_guards_refuse;
pub use rows::{
    a_first_row_is_committed, a_row_is_committed, a_row_is_rolled_back, a_transaction_begins,
};
pub use spread::{a_row_names_a_draft_of_another_page, versions_on_another_page_go};
pub use survivors::{a_dead_owner_is_outlived, a_file_is_opened_again};
pub use updates::a_swept_row_is_updated;
pub use writing::{locks_are_given_up, pages_are_written};
