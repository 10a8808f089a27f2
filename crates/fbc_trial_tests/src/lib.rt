//! Tests of plays by real attachments: the transcript, with the events where they are told, and the file behind it.
#![tactic(auto)]

#[cfg(test)]
mod fresh_tests;
#[cfg(test)]
mod other_tests;
#[cfg(test)]
mod playing;
