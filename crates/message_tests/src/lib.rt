//! Tests of messages through the public items of their crates, for what no clause specifies: the
//! names of fields, and that a new kind of message is read and written with only a layout. Clauses
//! and worked values specify the bits of messages. `tools/bench` times the tests that read and
//! write a message of each kind many times.
//!
//! They have a crate of their own, so that each of the other crates is proved once.
#![tactic(auto)]

#[cfg(test)]
mod message_layout_tests;
#[cfg(test)]
mod message_timing_tests;
#[cfg(test)]
mod traffic_message_tests;
