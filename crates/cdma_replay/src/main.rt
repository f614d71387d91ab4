//! `cdma_replay` reads a file of received samples and writes what a handset finds in it.
//!
//! The whole program is [`replay`], over command-line arguments, a source and a sink.
//! [`program::run`] adds what the process does around it: it flushes the output and reports a
//! failed run on standard error. This file only passes it the process's arguments and its standard
//! input, output and error.
#![tactic(auto)]

mod listener;
mod opening;
#[cfg(test)]
mod outside_tests;
mod program;
mod receiving;
mod replaying;
#[cfg(test)]
mod test_runs;
mod trial;
#[cfg(test)]
mod worker_tests;

use cdma_io::{ReaderSource, WriterSink};
pub use command_line::{Job, WordFault, words_of};
use program::{run, without_args};
pub use replaying::replay;
pub use run_ends::Status;
use std::process::ExitCode;
use std::rt::Env;
use std::{env, io};

/// Returns the arguments of the process, its own name first.
fn args_of_process<R: Env + AllocGlobal>(rt: &R) -> Result<Vec<String>, Status> {
    let args = env::args(rt).map_err(without_args)?;
    args.collect(rt.alloc()).map_err(|_| Status::NoMemory)
}

fn main(rt: HostRuntime) -> ExitCode {
    let mut source = ReaderSource::new(rt.reader());
    let mut sink = WriterSink::new(io::writer(&rt));
    let mut errors = WriterSink::new(rt.stderr());
    let args = args_of_process(&rt);
    run(&rt, args, &mut source, &mut sink, &mut errors)
}
