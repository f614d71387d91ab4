//! Laws of what the program must write, over the definitions of `run_replies`. Each input has one
//! required reply, for any number of workers. Further laws state the required reply of each command
//! for a valid input, what is decoded from a file that holds what a cell sends, with and without
//! noise, and that what a handset sleeps through changes nothing.
//!
//! No function of the program needs them.
#![tactic(auto)]

pub mod laws;
