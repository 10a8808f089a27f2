//! The words behind `play`.

use fbc_command_line::{Given, OptionRule, Takes, is_given, options_of};
use fbc_kinds::Padded;
use fbc_trials::Settings;
use std::alloc::{AllocError, Global};

/// The places of the options among them.
const TRACE: usize = 0;

const BUFFERS: usize = 1;

const LOCKS: usize = 2;

const BUDGET: usize = 3;

/// The options of a play: the switch `--trace`, and the numbers of an attachment's buffers, of lock requests, and of the
/// steps that a line may use.
fn play_options() -> [OptionRule; 4] {
    [
        OptionRule {
            name: Padded::new(b"trace"),
            takes: Takes::Nothing,
        },
        OptionRule {
            name: Padded::new(b"buffers"),
            takes: Takes::Number {
                least: 24,
                most: 512,
            },
        },
        OptionRule {
            name: Padded::new(b"locks"),
            takes: Takes::Number {
                least: 16,
                most: 65536,
            },
        },
        OptionRule {
            name: Padded::new(b"budget"),
            takes: Takes::Number {
                least: 16,
                most: 4_194_304,
            },
        },
    ]
}

/// How the words behind `play` want it to be played; none where they are no options of it.
pub(crate) fn settings_of(alloc: Global, words: &[String]) -> Result<Option<Settings>, AllocError> {
    match options_of(alloc, &play_options(), words)? {
        Some(given) => Ok(Some(settings_given(given.items()))),
        None => Ok(None),
    }
}

/// The settings that options give; where one is missing, its usual number.
fn settings_given(given: &[Given]) -> Settings {
    let usual = Settings::new();
    Settings {
        buffers: number_given(given, BUFFERS, usual.buffers),
        locks: number_given(given, LOCKS, usual.locks),
        budget: number_given(given, BUDGET, usual.budget),
        trace: is_given(given, TRACE),
    }
}

/// The number of an option, or the usual one.
fn number_given(given: &[Given], option: usize, usual: u32) -> u32 {
    for one in given {
        if one.option == option {
            return one.number.unwrap_or(usual);
        }
    }
    usual
}
