//! The levels in which something can be locked, and their table.

ghost use Rattle.std.specs.Prelude.{◌≡◌, ◌<◌, MatchOption};
ghost use Rattle.fbc_levels.specs.Levels.{number_of, is_compatible};
ghost use Rattle.fbc_levels.specs.Levels as spec;
ghost use Rattle.std.specs.List.{list_all};

use std::fmt;

/// A lock level. The order is that of the numbers, from none to exclusive.
#[derive(Clone, Copy, Debug, PartialEq, Eq)]
pub enum Level {
    /// None: no lock is held.
    Free,
    /// Null: a lock that keeps nobody out.
    Null,
    /// SR, shared read.
    Sr,
    /// PR, protected read.
    Pr,
    /// SW, shared write.
    Sw,
    /// PW, protected write.
    Pw,
    /// EX, exclusive.
    Ex,
}

impl fmt::Display for Level {
    ghost use Rattle.fbc_levels.specs.Names.{name_of};
    ghost use Rattle.std.specs.Prelude.{Some};

    ghost output = { λ level. Some (name_of level) };

    fn fmt<W: fmt::Write>(&self, f: &mut fmt::Formatter<W>) -> fmt::Result {
        f.write_str(match self {
            Level::Free => "none",
            Level::Null => "null",
            Level::Sr => "SR",
            Level::Pr => "PR",
            Level::Sw => "SW",
            Level::Pw => "PW",
            Level::Ex => "EX",
        })
    }
}

/// The level's number, 0 to 6.
pub fn number(level: Level) -> u8
    ensures { result ≡ number_of level }
{
    match level {
        Level::Free => 0,
        Level::Null => 1,
        Level::Sr => 2,
        Level::Pr => 3,
        Level::Sw => 4,
        Level::Pw => 5,
        Level::Ex => 6,
    }
}

/// The level with this number: none exactly past 6.
pub fn of_number(n: u8) -> Option<Level>
    ensures { MatchOption result (6 < n) (λ level. number_of level ≡ n) }
{
    match n {
        0 => Some(Level::Free),
        1 => Some(Level::Null),
        2 => Some(Level::Sr),
        3 => Some(Level::Pr),
        4 => Some(Level::Sw),
        5 => Some(Level::Pw),
        6 => Some(Level::Ex),
        _ => None,
    }
}

/// Whether one owner may be granted level `a` while another is granted level `b`.
pub fn compatible(a: Level, b: Level) -> bool
    ensures { result ≡ is_compatible a b }
{
    match a {
        Level::Free | Level::Null => true,
        Level::Sr => number(b) < 6,
        Level::Pr => number(b) < 4,
        Level::Sw => number(b) < 5 && b != Level::Pr,
        Level::Pw => number(b) < 3,
        Level::Ex => number(b) < 2,
    }
}

/// The level that gives what both give: PW for PR with SW, else the one with the greater number.
pub fn join(a: Level, b: Level) -> Level
    ensures { result ≡ spec.join a b }
{
    match (a, b) {
        (Level::Pr, Level::Sw) | (Level::Sw, Level::Pr) => Level::Pw,
        _ if number(a) < number(b) => b,
        _ => a,
    }
}

/// The greatest of none, PR and EX that goes beside every wanted level.
pub fn highest_beside(wanted: &[Level]) -> Level
    ensures { result ≡ spec.highest_beside wanted.now }
{
    if goes_beside(Level::Ex, wanted) {
        Level::Ex
    } else if goes_beside(Level::Pr, wanted) {
        Level::Pr
    } else {
        Level::Free
    }
}

/// Whether the level goes beside every wanted one.
fn goes_beside(level: Level, wanted: &[Level]) -> bool
    ensures { result ≡ list_all (is_compatible level) wanted.now }
{
    wanted.iter().all(|other| compatible(level, *other))
}
