//! What the body of a statement comes to.

use fbc_cache::Need;
use fbc_kinds::{Reply, Rule};
use fbc_world::Ask;

/// What the body of a statement comes to, up to its next step.
#[derive(Debug, Drop)]
pub enum BodyStep {
    /// It is done.
    Done,
    /// This page is to be got first.
    Miss(Need),
    /// This is to be asked first.
    Must(Ask),
    /// The statement is refused, and answered so.
    Over(Reply),
    /// The page breaks the rule.
    Damaged { page: u32, rule: Rule },
    /// An edit is not made: it does not have its grounds, or no place. Or the header names no page for the number.
    Refused,
    /// What is due next is not built yet.
    Unbuilt,
}
