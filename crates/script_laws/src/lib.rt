//! Laws of scripts and of the plans that they name, over the definitions of `cell_script`: which
//! line of a script is at fault, that a number has one spelling, that a named plan can be sent and
//! received, and that the script written for a plan names it.
//!
//! No function needs them: they are separate from the reading of scripts.
#![tactic(auto)]

pub mod laws;
