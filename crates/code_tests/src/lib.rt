//! Tests of codes and files through the public items of their crates. They cover what no clause
//! states: reads and writes that fail, and the pilot's codes as a whole.
//!
//! The tests are in a crate of their own, so that each tested crate is proved only once.
#![tactic(auto)]

#[cfg(test)]
mod cdma_io_tests;
#[cfg(test)]
mod short_code_tests;
