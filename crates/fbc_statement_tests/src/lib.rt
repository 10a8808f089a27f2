//! Tests of the desk of one attachment and of parts of statements over it, driven by hand over the pages of a new
//! file: what they ask for, what they answer, and the events of which a step would tell.
#![tactic(auto)]

#[cfg(test)]
mod desk_tests;
#[cfg(test)]
mod driver;
#[cfg(test)]
mod row_tests;
#[cfg(test)]
mod space_tests;
#[cfg(test)]
mod tip_tests;
#[cfg(test)]
mod tra_tests;
