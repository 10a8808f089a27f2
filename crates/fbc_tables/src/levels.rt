//! Lock levels: which go beside each other, which lies above two, and their numbers.

use fbc_levels::{Level, compatible, highest_beside, join, number, of_number};
use fbc_samples::{Fault, words_of};
use std::alloc::Global;

const LEVELS: [Level; 7] = [
    Level::Free,
    Level::Null,
    Level::Sr,
    Level::Pr,
    Level::Sw,
    Level::Pw,
    Level::Ex,
];

/// Answers one line. `beside` a level are told `y` or `n` for each level in turn, and the number of
/// the level that lies above both; `highest` tells the highest level that goes beside those that are
/// wanted, and `number` the level of a number.
pub fn answer(alloc: Global, line: &str) -> Result<String, Fault> {
    let words = words_of(alloc, line)?;
    match *words.as_slice() {
        ["beside", level] => beside(alloc, level_of(level)?),
        ["highest", ref wanted @ ..] => {
            let mut levels = Vec::new(alloc);
            for word in wanted {
                levels.push(level_of(word)?)?;
            }
            let highest = highest_beside(&levels);
            Ok(format!(in alloc; "{highest}")?)
        }
        ["number", n] => match of_number(n.parse()?) {
            Some(level) => Ok(format!(in alloc; "{level} {}", number(level))?),
            None => Ok(String::from_str(alloc, "no level")?),
        },
        _ => Err(Fault::Unreadable),
    }
}

fn beside(alloc: Global, level: Level) -> Result<String, Fault> {
    let mut out = String::new(alloc);
    for other in LEVELS {
        out.push_str(if compatible(level, other) { "y" } else { "n" })?;
    }
    out.push_str(" ")?;
    for other in LEVELS {
        write!(out, "{}", number(join(level, other)))?;
    }
    Ok(out)
}

fn level_of(word: &str) -> Result<Level, Fault> {
    match word {
        "none" => Ok(Level::Free),
        "null" => Ok(Level::Null),
        "SR" => Ok(Level::Sr),
        "PR" => Ok(Level::Pr),
        "SW" => Ok(Level::Sw),
        "PW" => Ok(Level::Pw),
        "EX" => Ok(Level::Ex),
        _ => Err(Fault::Unreadable),
    }
}
