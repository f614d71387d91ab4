//! What the process does with its arguments and standard streams.

ghost use Rattle.cdma_replay.specs.Common.{Rose, job_named};
ghost use Rattle.std.specs.Prelude.{◌≡◌, ◌≢◌, IfErr, IfOk, IsTrue, OnErr, drop, map};
ghost use Rattle.std.specs.Io.KnownBytes.{Keeps};
ghost use Rattle.std.specs.IoError.{error_kind};
ghost use Rattle.std.specs.Process.{exit_status};
ghost use Rattle.run_replies.specs.Runs.{ExitsBy, IsPassedOn, RunsCommand, TellsEnd, each_form};
ghost use Rattle.run_ends.specs.Status.{code_of};
ghost use Rattle.run_ends.specs.Flows.{flow_of};

use crate::replaying::replay;
use cdma_io::{Sink, Source};
use event_tap::{FrameTap, MessageTap, PilotTap, RawTap, Tap};
use pilot_search::Open;
use run_ends::Status;
use run_replies::{Output, args_after_name, pass_on, report, without_taps};
use std::alloc::{AllocError, Global};
use std::io;
use std::io::ErrorKind;
use std::process::ExitCode;
use std::thread::Threads;

/// Returns the status of a run whose arguments could not be read.
pub fn without_args(refused: io::Error) -> Status
    ensures memory { error_kind refused ≡ ErrorKind.OutOfMemory → result ≡ Status.NoMemory }
    ensures others { error_kind refused ≢ ErrorKind.OutOfMemory → result ≡ Status.BadWords }
{
    match refused.kind() {
        ErrorKind::OutOfMemory => Status::NoMemory,
        _ => Status::BadWords,
    }
}

/// Runs the command that the arguments name, with these taps, and flushes the output.
fn run_tapped<R: Threads + Sync, S: Source, K: Output>(
    rt: &R,
    alloc: Global,
    args: &[String],
    source: &mut S,
    sink: &mut K,
    taps: Vec<Box<dyn Tap>>,
) -> Status
    ensures ran { RunsCommand (map (λ b. shape b) taps.items) (job_named args.now) result
        (flow_of S.rest S.faults source.old source.new)
        (flow_of K.written K.faults sink.old sink.new)
        (Keeps (K.written sink.old) (K.written sink.new)) }
    ensures flushed { IsPassedOn result (Rose (K.faults sink.old) (K.faults sink.new))
        (IsTrue (K.is_flushed sink.new)) }
{
    let status = replay(rt, alloc, args, source, sink, taps, &Open);
    pass_on(status, sink)
}

/// Runs the command that the arguments name, with a tap of each form, and flushes the output. Fails
/// if there is no memory for the taps.
fn run_args<R: AllocGlobal + Threads + Sync, S: Source, K: Output>(
    rt: &R,
    args: &[String],
    source: &mut S,
    sink: &mut K,
) -> Result<Status, AllocError>
    ensures ran { IfOk result (λ status. RunsCommand each_form (job_named args.now) status
        (flow_of S.rest S.faults source.old source.new)
        (flow_of K.written K.faults sink.old sink.new)
        (Keeps (K.written sink.old) (K.written sink.new))) }
    ensures flushed { IfOk result (λ status.
        IsPassedOn status (Rose (K.faults sink.old) (K.faults sink.new))
        (IsTrue (K.is_flushed sink.new))) }
    ensures err { OnErr result ((source.new ≡ source.old) × (sink.new ≡ sink.old)) }
{
    let alloc = rt.alloc();
    let mut taps: Vec<Box<dyn Tap>> = Vec::with_capacity(alloc, 4)?;
    taps.push(Box::new(alloc, PilotTap::new())?)?;
    taps.push(Box::new(alloc, MessageTap::new())?)?;
    taps.push(Box::new(alloc, FrameTap::new())?)?;
    taps.push(Box::new(alloc, RawTap::new())?)?;
    Ok(run_tapped(rt, alloc, args, source, sink, taps))
}

/// Runs the command of the process, or returns the status of unreadable arguments.
fn run_given<R: AllocGlobal + Threads + Sync, S: Source, K: Output>(
    rt: &R,
    args: Result<Vec<String>, Status>,
    source: &mut S,
    sink: &mut K,
) -> Status
    ensures refused { IfErr args (λ status.
        (result ≡ status) × (source.new ≡ source.old) × (sink.new ≡ sink.old)) }
    ensures ran { IfOk args (λ given. RunsCommand each_form (job_named (drop 1 given.items)) result
        (flow_of S.rest S.faults source.old source.new)
        (flow_of K.written K.faults sink.old sink.new)
        (Keeps (K.written sink.old) (K.written sink.new))) }
    ensures flushed { IfOk args (λ given.
        IsPassedOn result (Rose (K.faults sink.old) (K.faults sink.new))
        (IsTrue (K.is_flushed sink.new))) }
{
    match args {
        Ok(args) => {
            let following = args_after_name(args.as_slice());
            match run_args(rt, following, source, sink) {
                Ok(status) => status,
                Err(_) => without_taps(rt.alloc(), following),
            }
        }
        Err(status) => status,
    }
}

/// Runs the process: its arguments (its own name first), standard input, output and error. Returns
/// the exit status of the command that the arguments name, run with a tap of each form, or that of
/// unreadable arguments. The line of any status but [`Status::Done`] is written to standard error.
pub fn run<R: AllocGlobal + Threads + Sync, S: Source, K: Output, E: Sink>(
    rt: &R,
    args: Result<Vec<String>, Status>,
    source: &mut S,
    sink: &mut K,
    errors: &mut E,
) -> ExitCode
    // If the arguments could not be read, source and sink are unchanged, and the end is reported.
    ensures refused { IfErr args (λ status. (exit_status result ≡ code_of status) ×
        (source.new ≡ source.old) × (sink.new ≡ sink.old) ×
        TellsEnd status (flow_of E.written E.faults errors.old errors.new)) }
    // The exit status is that of an end that fulfils the contract of `replay` for the arguments
    // after the first, with a tap of each form. The end is reported, and what was written has been
    // passed on.
    ensures ran { IfOk args (λ given. ExitsBy
        (λ status. RunsCommand each_form (job_named (drop 1 given.items)) status
        (flow_of S.rest S.faults source.old source.new)
        (flow_of K.written K.faults sink.old sink.new)
        (Keeps (K.written sink.old) (K.written sink.new)))
        (λ status. TellsEnd status (flow_of E.written E.faults errors.old errors.new))
        (λ status. IsPassedOn status (Rose (K.faults sink.old) (K.faults sink.new))
        (IsTrue (K.is_flushed sink.new)))
        (exit_status result)) }
{
    let status = run_given(rt, args, source, sink);
    report(status, errors);
    ExitCode::from(status.code())
}
