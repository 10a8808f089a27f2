//! Pointer and data pages as bytes: what a page's bytes spell, which rule they break first, and the one
//! spelling of a page.
//!
//! - **Proved**:
//!   - `encode_pointer` and `encode_data` write bytes that spell the page, whatever stood in the buffer.
//!   - `decode_pointer` and `decode_data` answer the page that the bytes spell, and else the first rule that
//!     they break, in the order of docs/FORMATS.md.
//!   - A page within its limits has one spelling, and no bytes spell two pages (`one_pointer`, `one_data`).
//! - **Supposed**: the size is one of the five, a buffer has that many bytes, a page to be written is within
//!   its limits, and a value has at most 200 bytes.
#![tactic(auto)]

mod cells;
mod data;
mod judged;
mod pointers;
mod starts;
mod unique;

pub use data::{decode_data, encode_data};
pub use pointers::{decode_pointer, encode_pointer};
pub use unique::{one_data, one_pointer};
