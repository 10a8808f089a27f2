//! Tests of the page cache of one attachment, as tables of plain steps and of what is seen of each: its buffers, the
//! order of writes, how pages come into use, and the serving of callbacks, driven by hand over made-up answers; and
//! callbacks through the shared region.
#![tactic(auto)]

#[cfg(test)]
mod buffer_tests;
#[cfg(test)]
mod callback_tests;
#[cfg(test)]
mod damage_tests;
#[cfg(test)]
mod driver;
#[cfg(test)]
mod graph_tests;
#[cfg(test)]
mod order_tests;
#[cfg(test)]
mod readers;
#[cfg(test)]
mod reading_tests;
#[cfg(test)]
mod region_fixture;
#[cfg(test)]
mod region_tests;
#[cfg(test)]
mod steps;
#[cfg(test)]
mod use_tests;
