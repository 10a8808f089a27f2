//! The codecs of the file's own pages: the header, page inventories and transaction inventories, and the
//! recognition of a file by its first bytes.
//!
//! - **Proved**:
//!   - `encode_header`, `encode_inventory` and `encode_tip` write bytes that spell the page, whatever stood
//!     in the buffer.
//!   - `decode_header`, `decode_inventory` and `decode_tip` answer the page that the bytes spell, and else
//!     the first rule that they break, in the order of docs/FORMATS.md.
//!   - A page within its limits has one spelling, and no bytes spell two pages (`one_header`,
//!     `one_inventory`, `one_tip`).
//!   - `recognise` accepts a file by its length and its first 1,024 bytes alone, and else names the first
//!     rule that they break.
//! - **Supposed**: the size is one of the five, a buffer has that many bytes, and a page to be written is
//!   within its limits. `recognise` is given the first 1,024 bytes, or all where there are fewer, of a file
//!   within its device's reach.
#![tactic(auto)]

mod content;
pub mod head;
mod headers;
mod inventories;
mod laws;
pub mod numbers;
mod recognition;
mod tips;

pub use headers::{decode_header, encode_header};
pub use inventories::{decode_inventory, encode_inventory};
pub use laws::{one_header, one_inventory, one_tip};
pub use recognition::recognise;
pub use tips::{decode_tip, encode_tip};
