//! Pages, files and shapes with which tests and tables begin, and how the rows of tables are read and
//! answered. Every byte of the files is written down here by hand, after docs/FORMATS.md.
#![tactic(auto)]

mod faults;
mod files;
mod parts;
mod rows;
mod shapes;
mod words;

pub use faults::Fault;
pub use files::{FRESH, LATE_FAULT, LINKED, ONE_ROW, TWO_RELATIONS, UNFINISHED_UPDATE};
pub use parts::{Part, file_of, lay, lay_all, page_of};
pub use rows::{file_named, is_row, parts_named, push_answer};
pub use shapes::{shape, wide_shape};
pub use words::{lay_changes, push_bytes, push_changes, push_lines, words_of};
