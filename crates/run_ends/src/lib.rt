//! The end of a run: its [`Status`], whose text the program writes on standard error and whose code
//! is the exit status.
//!
//! The crate also has definitions that every command's contract needs: a source or a sink before
//! and after a run (`Flows`), and the file that a script names, with the contract of a run of
//! `make` (`Make`).
#![tactic(auto)]

mod status;

pub use status::Status;
