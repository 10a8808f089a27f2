//! Tests of the device, the source and the sink, and of long scripts.
#![tactic(auto)]

#[cfg(test)]
mod outside_tests;
#[cfg(test)]
mod script_tests;
