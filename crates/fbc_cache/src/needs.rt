//! What is asked of the cache, and what it asks for.

use fbc_levels::Level;
use fbc_world::Ask;

/// A page that is to be used.
#[derive(Clone, Copy, Debug, PartialEq, Eq)]
pub struct Need {
    pub page: u32,
    /// PR to read it, EX to change it.
    pub level: Level,
    /// Whether to wait for its lock.
    pub wait: bool,
    /// Whether it is to be formatted, so that it is not read.
    pub fresh: bool,
}

/// What a need comes to.
#[derive(Debug, Drop)]
pub enum Want {
    /// The page may be used.
    Here,
    /// This step is due first.
    Must(Ask),
}
