//! What a process does around the run of a job: it flushes the output, and reports a failed run on
//! standard error.

ghost use Rattle.cdma_io.specs.Outside.{CountsFaults, HasCause};
ghost use Rattle.command_line.specs.Args.{job_named};
ghost use Rattle.run_replies.specs.Find.{IsEnd};
ghost use Rattle.run_ends.specs.Flows.{flow_of};
ghost use Rattle.run_replies.specs.Runs.{MayHold, PassesOn, TellsEnd};
ghost use Rattle.std.specs.Io.KnownBytes.{Keeps};
ghost use Rattle.std.specs.Prelude.{◌≡◌, ◌↔◌, ◌⊎◌, Bool, IsTrue, None, OnErr, OnOk, drop, true};

use cdma_io::{Failed, FileFault, Sink, WriterSink, write_all};
use command_line::{WordFault, words_of};
use run_ends::Status;
use std::alloc::Global;
use std::io::Write;

/// A sink that may buffer bytes until it is flushed.
pub trait Output: Sink {
    // No bytes are still buffered.
    ghost is_flushed: { Self → Bool };

    /// Writes out what is buffered.
    ///
    /// Returns [`Failed`] only if the count of faults rose, by one.
    fn flush(&mut self) -> Result<(), Failed>
        ensures written { Keeps (Self.written self.old) (Self.written self.new) }
        ensures cause { HasCause (Self.faults self.old) (Self.faults self.new) result }
        ensures counted { CountsFaults (Self.faults self.old) (Self.faults self.new) result }
        ensures flushed { OnOk result (IsTrue (is_flushed self.new)) };
}

impl<W: Write> Output for WriterSink<W> {
    // What a flush passes on depends on the writer; std guarantees nothing about it.
    ghost is_flushed = { λ _. true };

    fn flush(&mut self) -> Result<(), Failed> {
        WriterSink::flush(self)
    }
}

/// Returns the status of a run after its output was flushed: a failed flush counts as a failed
/// write if the run succeeded otherwise.
fn flushed(status: Status, flush: Result<(), Failed>) -> Status
    ensures done { OnOk flush (result ≡ status) }
    ensures lost { OnErr flush (IsEnd status → result ≡ Status.WriteFault) }
    ensures kept { ¬ (IsEnd status) → result ≡ status }
{
    match (status, flush) {
        (Status::Done | Status::NoSync, Err(Failed)) => Status::WriteFault,
        _ => status,
    }
}

/// Whether a sink may still buffer text after a run with this status.
fn may_hold(status: Status) -> bool
    ensures { IsTrue result ↔ MayHold status }
{
    match status {
        Status::Done | Status::NoSync | Status::ReadFault => true,
        Status::BadFile(fault) => shows_late(fault),
        _ => false,
    }
}

/// Whether text may have been written before this fault of a file is found.
fn shows_late(fault: FileFault) -> bool
    ensures { IsTrue result ↔ MayHold (Status.BadFile fault) }
{
    matches!(fault, FileFault::Short { .. } | FileFault::Extra { .. })
}

/// Flushes a sink that may buffer text after a run with this status, and returns the final status.
/// A sink without text, or whose write failed, is not flushed.
pub fn pass_on<K: Output>(status: Status, sink: &mut K) -> Status
    ensures { PassesOn status result (flow_of K.written K.faults sink.old sink.new)
        (IsTrue (K.is_flushed sink.new)) }
{
    if !may_hold(status) {
        return status;
    }
    let flush = sink.flush();
    flushed(status, flush)
}

/// Returns the status of a run that could not allocate its taps. Invalid arguments are still
/// reported as such.
pub fn without_taps(alloc: Global, args: &[String]) -> Status
    ensures bad_words { (result ≡ Status.BadWords) ↔ (job_named args.now ≡ None) }
    ensures either { (result ≡ Status.BadWords) ⊎ (result ≡ Status.NoMemory) }
{
    match words_of(alloc, args) {
        Err(WordFault::Bad) => Status::BadWords,
        _ => Status::NoMemory,
    }
}

/// Returns the arguments after the program's own name.
pub fn args_after_name(args: &[String]) -> &[String]
    ensures { result.now ≡ drop 1 args.now }
{
    match args.split_first() {
        Some((_name, following)) => following,
        None => args,
    }
}

/// Writes the line of a status to standard error, and nothing for [`Status::Done`]. A failure of
/// that write is ignored, since it cannot be reported.
pub fn report<E: Sink>(status: Status, errors: &mut E)
    ensures { TellsEnd status (flow_of E.written E.faults errors.old errors.new) }
{
    if status.is_done() {
        return;
    }
    let line = status.line();
    let _told = write_all(errors, line.bytes());
}
