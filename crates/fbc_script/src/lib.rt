//! The script language: reads every script of its grammar, refuses every other at its first faulty line with
//! the cause, and prints scripts back.
//!
//! - Defined here, on lists of bytes: lines and pieces (`specs/Pieces`), words, numbers, statements, and
//!   whole scripts.
//! - **Proved**:
//!   - `parse` gives the one script that bytes spell, or the first faulty line and its cause, in both forms
//!     of the language. Bytes spell one script (`bytes_spell_one_script`), and a line has one spelling
//!     (`lines_have_one_spelling`).
//!   - `print` gives the spelling of each line, and an empty line for each that was passed over; of a script
//!     that some bytes spell, a text that reads back to it (`reads_back`).
//!   - `single_transaction` tells exactly whether a script is empty or one transaction on the relation `t`,
//!     and gives its steps.
//! - **Supposed**: a script has fewer than 4,294,967,295 bytes.
#![tactic(auto)]

mod faults;
mod laws;
mod numbers;
mod orders;
mod parsing;
mod pieces;
mod printing;
mod script;
mod single;
mod statements;
mod words;

pub use faults::{ParseFault, ScriptFault, Why};
pub use laws::{bytes_spell_one_script, lines_have_one_spelling};
pub use numbers::number;
pub use parsing::parse;
pub use printing::print;
pub use script::{Line, Order, Script, Statement, Text, Trap};
pub use single::{SingleTransaction, Step, single_transaction};
