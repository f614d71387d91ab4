//! Receives a sample file: first its span, then all of its samples.

ghost use Rattle.cdma_replay.specs.Common.{IsKept, IsLawfulJob, ReceivesFile, ended};
ghost use Rattle.std.specs.Prelude.{◌≡◌, ◌≤◌, length, All};
ghost use Rattle.run_replies.specs.Hearing.{span_of};
ghost use Rattle.run_ends.specs.Flows.{flow_of};

use crate::opening::listener_for;
use cdma_io::{Sink, Source};
use chip_core::Sample;
use command_line::Job;
use event_tap::KeepsTaps;
use pilot_search::Gate;
use run_ends::Status;
use run_replies::{Workspace, hear_file, open_span};
use short_code::Codes;
use std::alloc::Global;
use std::thread::Threads;

/// Reads the file's first samples into `span`, writes their text, and reads on to the end of the
/// file through the buffer `piece`. The listener, if any, takes all samples.
fn receive_file<R: Threads + Sync, S: Source, K: Sink, T: KeepsTaps, G: Gate + Sync>(
    rt: &R,
    alloc: Global,
    job: Job,
    codes: Codes,
    span: &mut [Sample],
    piece: &mut [Sample],
    source: &mut S,
    sink: &mut K,
    taps: T,
    gate: &G,
) -> Result<(), Status>
    requires span { (length span.old ≡ span_of job) × (span_of job ≤ 32768) }
    requires job { IsLawfulJob job }
    requires piece { length piece.old ≡ 4096 }
    requires kept { All IsKept (T.kept taps) }
    ensures { ReceivesFile (T.kept taps) job (ended result)
        (flow_of S.rest S.faults source.old source.new)
        (flow_of K.written K.faults sink.old sink.new) }
{
    let reader = open_span(source, span)?;
    let mut listener = listener_for(rt, alloc, job, reader.header(), codes, span, gate)?;
    let mut taps = taps;
    hear_file(reader, span, piece, source, &mut listener, &mut taps, sink)
}

/// Writes the text of the file's first samples, then reads on to the end of the file. The listener,
/// if any, takes all samples; the taps receive each event of a handset, the pilot first.
///
/// All memory is allocated before the first line is written.
pub fn receive<R: Threads + Sync, S: Source, K: Sink, T: KeepsTaps, G: Gate + Sync>(
    rt: &R,
    alloc: Global,
    job: Job,
    source: &mut S,
    sink: &mut K,
    taps: T,
    gate: &G,
) -> Result<(), Status>
    requires job { IsLawfulJob job }
    requires kept { All IsKept (T.kept taps) }
    ensures { ReceivesFile (T.kept taps) job (ended result)
        (flow_of S.rest S.faults source.old source.new)
        (flow_of K.written K.faults sink.old sink.new) }
{
    let Workspace {
        codes,
        span: mut samples,
        mut piece,
    } = Workspace::new(alloc, usize::from(job.search().span))?;
    receive_file(
        rt,
        alloc,
        job,
        codes,
        &mut samples,
        &mut piece,
        source,
        sink,
        taps,
        gate,
    )
}
