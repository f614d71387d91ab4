//! Tests of the search and the survey through their public interfaces, for what no clause
//! specifies: the calls of the workers' gates, workers that run concurrently, and phases left
//! unfinished. Also the work of the search and of the decoders that `tools/bench` times, with a
//! plain loop for comparison.
//!
//! They are in a crate of their own, so that each of the tested crates is proved once.
#![tactic(auto)]

#[cfg(test)]
mod decoder_timing_tests;
#[cfg(test)]
mod gates;
#[cfg(test)]
mod plain_search_tests;
#[cfg(test)]
mod search_tests;
#[cfg(test)]
mod survey_tests;
