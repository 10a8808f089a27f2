//! The check of a whole file: whether it has damage, and by which rule each damaged page; and where it has
//! none, the lost pages and the lost cells. The file is opened, the pages that it reaches are read and judged
//! in all their roles, and the chains of versions are followed. A file has no damage exactly where it is
//! sound.
//!
//! - **Proved**:
//!   - `validate` answers `NotOurs` with the first rule that the file breaks by its first bytes and its
//!     length, and checks exactly the files that break none (`refused`, `found`).
//!   - What it finds is right for the view that the file's bytes give (`HasFound` of `specs/Checked`): the
//!     length in pages; each page that is named and breaks a rule, once, with the first such rule, by rising
//!     numbers; no damage exactly where the bytes give a view that is sound; then exactly the lost pages and
//!     cells, and else no lost space.
//!   - A file that is refused is read once (`refused_read`).
//!   - The device's bytes stay, nothing is written, and it is blamed only where its count of faults rose.
//!   - No page is damaged (`specs/Damage`, over the view alone) exactly where the view is sound, where each
//!     named page whose bytes break no rule is one that they show (`sound_without_damage`).
//! - **Supposed**: the device reaches at most 2^40 bytes. What is found is said of one that tells its bytes.
//! - That each page is read once is proved of the parts (`Tally::note` of `fbc_reach`), and of the whole
//!   tested alone.
//! - **Argued**: no page is ever reported as reached twice (docs/DECISIONS.md).
#![tactic(auto)]

mod damages;
mod faults;
mod findings;
mod laws;
mod lost;
mod marks;
mod validating;

pub use faults::ValidateFault;
pub use findings::Findings;
pub use laws::sound_without_damage;
pub use validating::validate;
