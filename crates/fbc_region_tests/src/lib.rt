//! Tests of the shared region as a whole, by running it over a device in memory, of journals, and of cuts of them.
#![tactic(auto)]

#[cfg(test)]
mod cut_tests;
#[cfg(test)]
mod fixtures;
#[cfg(test)]
mod journal_tests;
#[cfg(test)]
mod journals;
#[cfg(test)]
mod lock_tests;
#[cfg(test)]
mod owner_tests;
#[cfg(test)]
mod page_tests;
#[cfg(test)]
mod plays;
