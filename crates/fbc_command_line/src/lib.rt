//! The words of a command line, and the command that they spell.
//!
//! - **Proved**:
//!   - `command_of` gives the one command that words spell, and nothing exactly where they spell none
//!     (`specs/Commands`). The same words spell one command (`words_spell_one_command`).
//!   - `options_of` gives the options of a table that words give, in the order of the words, and nothing
//!     exactly where some word is none of them, a number is missing or out of its range, or an option is
//!     given twice (`specs/Options`). The same words give one list (`words_give_one_list`).
#![tactic(auto)]

mod commands;
mod laws;
mod new_file;
mod options;

pub use commands::{Command, command_of};
pub use laws::{words_give_one_list, words_spell_one_command};
pub use options::{Given, OptionRule, Takes, is_given, options_of};
