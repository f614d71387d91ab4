//! The top-level call: the whole program.

ghost use Rattle.cdma_replay.specs.Common.{IsLawfulJob, job_named, ended, RunsJob};
ghost use Rattle.std.specs.Prelude.{◌≡◌, map};
ghost use Rattle.run_replies.specs.Runs.{RunsCommand};
ghost use Rattle.run_ends.specs.Flows.{flow_of};

use crate::receiving::receive;
use crate::trial::trial;
use base_modulator::make;
use cdma_io::{Sink, Source};
use command_line::{Job, WordFault, words_of};
use event_tap::{Tap, Taps};
use pilot_search::Gate;
use run_ends::Status;
use std::alloc::Global;
use std::thread::Threads;

/// Returns the status of a result: [`Status::Done`] or the error.
fn status_of(run: Result<(), Status>) -> Status
    ensures { result ≡ ended run }
{
    match run {
        Ok(()) => Status::Done,
        Err(status) => status,
    }
}

/// Runs a job over a source and a sink, and returns how it ended.
fn run_job<R: Threads + Sync, S: Source, K: Sink, G: Gate + Sync>(
    rt: &R,
    alloc: Global,
    job: Job,
    source: &mut S,
    sink: &mut K,
    taps: Vec<Box<dyn Tap>>,
    gate: &G,
) -> Status
    requires { IsLawfulJob job }
    ensures { RunsJob (map (λ b. shape b) taps.items) job result
        (flow_of S.rest S.faults source.old source.new)
        (flow_of K.written K.faults sink.old sink.new) }
{
    match job {
        Job::Make { width } => status_of(make(alloc, width, source, sink)),
        Job::Trial { number, workers } => {
            status_of(trial(rt, alloc, number, workers, sink, gate))
        }
        _ => {
            let taps = Taps::new(taps, job.limits());
            status_of(receive(rt, alloc, job, source, sink, taps, gate))
        }
    }
}

/// Runs the command that the arguments name over a source and a sink, and returns how it ended.
///
/// `find` reads a sample file, searches the first samples, as many as its span, for the phase of
/// the pilot (TIA/EIA-95-B, 7.1.3.1.9), writes its line, and reads on to the end of the file.
/// `follow` also follows the samples with a handset: the taps receive the pilot and each event as
/// it occurs, and write their text. It ends with `NoSync` if no message contained the time.
/// `survey` reads like `find`, but measures the strength of each of the 512 pilots (7.1.3.2.1) in
/// the first samples, and writes the first of their ranks, a line each. `make` reads a script, and
/// writes the file of the cell that it names. `trial` reads nothing: it makes the link of its
/// number, follows it with a handset, and writes one line that counts what was received. `rate2`
/// searches like `find`, but writes no line for the pilot. From the mark on, which a sync message
/// sets, it decodes each frame of one traffic channel as one of rate set 2 (TIA/EIA-95-B, 7.1.3.5),
/// and writes its line. It ends with `NoSync` as `follow` does. `list` does the same with frames of
/// rate set 1, each chosen from the first k codewords of a rate by right quality bits. `idle`
/// decodes, also after the mark, the slots of one paging channel in which a handset with a key
/// wakes (TIA/EIA-95-B, 6.6.2.1.1.3), and writes the line of each slot and those of its messages.
///
/// [`command_line::words_of`] lists the commands' options and their defaults.
///
/// Each worker of a search or a survey calls the gate before its first phase and after its last.
/// The output is the same for any number of workers and any interleaving.
pub fn replay<R: Threads + Sync, S: Source, K: Sink, G: Gate + Sync>(
    rt: &R,
    alloc: Global,
    args: &[String],
    source: &mut S,
    sink: &mut K,
    taps: Vec<Box<dyn Tap>>,
    gate: &G,
) -> Status
    ensures { RunsCommand (map (λ b. shape b) taps.items) (job_named args.now) result
        (flow_of S.rest S.faults source.old source.new)
        (flow_of K.written K.faults sink.old sink.new) (sink.new ≡ sink.old) }
{
    match words_of(alloc, args) {
        Ok(job) => run_job(rt, alloc, job, source, sink, taps, gate),
        Err(WordFault::Bad) => Status::BadWords,
        Err(WordFault::OutOfMemory) => Status::NoMemory,
    }
}
