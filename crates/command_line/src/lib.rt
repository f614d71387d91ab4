//! The command-line arguments.
//!
//! [`words_of`] makes a [`Job`] of the arguments after the program's name: a command, and its
//! options in any order, each at most once, as `--name VALUE` or `--name=VALUE`. One table has each
//! option with the form of its values and its default. Each command states its options and makes a
//! job of their values if they go together. The arguments are first checked against these tables,
//! which allocates nothing; then clap splits them by a command made from the table. So invalid
//! arguments are rejected even when out of memory.
#![tactic(auto)]

mod commands;
mod grammar;
mod job;
mod matching;
mod receiving;
mod testing;
mod texts;

pub use job::{Job, JobSearch, WordFault, words_of};
