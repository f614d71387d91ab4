//! The script of a trial: a number determines the plan of a whole link, and the script is the
//! plan's.
#![tactic(auto)]

pub mod laws;
mod trial;

pub use trial::{trial_script, trial_serial_number};
