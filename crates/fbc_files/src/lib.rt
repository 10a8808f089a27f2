//! What the bytes of a whole file show, how a file is opened, and how a new one is made.
//!
//! - **Proved**:
//!   - `open` opens exactly the files whose first 1,024 bytes and length break no rule, with the shape that
//!     they show and the length, and else answers the first rule that they break (`opened`, `refused`). It
//!     writes nothing and blames the device only where its count of faults rose. It makes one read, also
//!     where it refuses the file, and at most one where a call of the device failed (`read_once`, `reads`).
//!   - `create_file` makes over an empty device exactly the pages of a new file, and answers how many they
//!     are (`count`, `made`). Whatever it answers, a device that was empty holds what the first of its writes
//!     make, in their order, the one that failed having landed or not (`part`). Without memory the device
//!     stays.
//!   - A new file is sound, however far its device reaches, and means the machine without rows
//!     (`new_file_is_sound`). Before the last write, that of the header, it is not recognised
//!     (`header_comes_last`).
//!   - Bytes of whole pages of which the first spells a header are recognised, with that header's shape
//!     (`recognised_header`); bytes that are a list of pages give its view (`listed_pages`); the write of a
//!     page puts it in its place and leaves every other as it was (`page_write`).
//!   - Where the pages that header and pointer pages name have their roles, each page that is reached has its
//!     own and is reached once (`reached_pages`). A view that names no data page and in which no transaction
//!     is over is sound and means the machine without rows (`rowless_view`).
//!   - `are_new_relations` is true exactly of the relations that a file can be made with.
//!   - A recognised file's view is of the shape that its first bytes show, as the laws of the core ask of the
//!     file at the start, whatever damage there is behind these bytes (`recognised_files_are_of_their_shape`).
//!     The shape of an opened file is one that a file may have by those laws, with the same greatest lengths
//!     of values (`file_shapes_are_shapes`).
//! - **Supposed**: `create_file` is given one of the five page sizes, such relations, and a device that
//!   reaches at least 262,144 bytes. What is said of bytes is said of a device that tells them.
//! - **Argued**: `open` asks for the length once, and for no more than 1,024 bytes.
#![tactic(auto)]

mod creating;
mod faults;
mod laws;
mod new_laws;
mod new_pages;
mod opening;
mod relations;
mod shape_laws;
mod view_laws;

pub use creating::create_file;
pub use faults::{CreateFault, OpenFault};
pub use laws::{listed_pages, page_write, recognised_header};
pub use new_laws::{header_comes_last, new_file_is_sound};
pub use opening::{Opened, open};
pub use relations::{NewRelation, are_new_relations};
pub use shape_laws::{file_shapes_are_shapes, recognised_files_are_of_their_shape};
pub use view_laws::{reached_pages, rowless_view};
