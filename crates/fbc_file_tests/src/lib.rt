//! Tests of new files, of the pages that a file reaches, of chains, and of the check of whole files
//! with its report.
#![tactic(auto)]

#[cfg(test)]
mod chain_tests;
#[cfg(test)]
mod check_tests;
#[cfg(test)]
mod new_file_tests;
#[cfg(test)]
mod reach_tests;
#[cfg(test)]
mod report_tests;
