//! Tests of what no clause specifies about taps and faults, through public interfaces: a tap of
//! another crate, a sink that fails within a line, and the printed texts of all faults.
//!
//! They have a crate of their own, so that each of the others is proved only once.
#![tactic(auto)]

#[cfg(test)]
mod fault_text_tests;
#[cfg(test)]
mod tap_tests;
