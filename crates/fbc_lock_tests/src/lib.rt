//! Tests of the lock manager: the lock table, its queues and its callbacks, over one list of requests.
#![tactic(auto)]

#[cfg(test)]
mod callback_tests;
#[cfg(test)]
mod manager_tests;
#[cfg(test)]
mod queue_tests;
#[cfg(test)]
mod steps;
#[cfg(test)]
mod table_tests;
