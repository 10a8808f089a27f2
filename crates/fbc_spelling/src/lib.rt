//! The bytes of a page of any kind: the page that bytes show, and the bytes that spell a page.
//!
//! - **Proved**:
//!   - `page_shown` answers the page that bytes show under a number, by the kind that they name; that page is
//!     within its limits. Where they show none it answers the first rule that they break (`found`, `limits`,
//!     `exact`).
//!   - `spell_page` writes bytes that spell the page, over all that stood in the buffer.
//!   - Bytes that spell a page break no rule where it may stand, and show that page alone
//!     (`spelled_pages_are_shown`).
//!   - **Bytes give one view**: for each page size and any list of numbers there is a view that they give as a
//!     file's bytes, and two views that they give show the same under each number (`bytes_give_one_view`).
//! - **Supposed**: the shape is one that a recognised file has (`IsFileShape`), a buffer has a page's bytes,
//!   and a page to be written is within its limits.
#![tactic(auto)]

mod laws;
mod lengths;
mod shown;
mod spelled;
mod views;

pub use laws::spelled_pages_are_shown;
pub use shown::page_shown;
pub use spelled::spell_page;
pub use views::bytes_give_one_view;
