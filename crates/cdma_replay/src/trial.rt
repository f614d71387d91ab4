//! The command `trial`: makes the link of a number, follows it with a handset, and counts what was
//! received.

ghost use Rattle.cdma_replay.specs.Common.{Sample as TheSample, AppendsPrefix, Rose, IsWorkers};
ghost use Rattle.cdma_replay.specs.Common.{events, Tuning, Event as TheEvent};
ghost use Rattle.std.specs.Prelude.{◌≡◌, ◌≤◌, ◌+◌, ◌++◌, ◌⊎◌, List, length, Err, IfOk, IfErr, OnOk};
ghost use Rattle.std.specs.Prelude.{OnErr, ◌<◌, take};
ghost use Rattle.std.specs.Io.KnownBytes.{Appends};
ghost use Rattle.chip_core.specs.declared.width.Width.TheVariants.{Sixteen};
ghost use Rattle.cell_plan.specs.Sampled.{made_samples};
ghost use Rattle.trial_link.specs.Trial.{trial_plan};
ghost use Rattle.mobile_core.specs.Standing.{StandsFor, has_room, steps_left};
ghost use Rattle.run_replies.specs.Trials.{LeavesRoom, counts_of, trial_line};

use base_modulator::{Cell, trial_cell};
use cdma_io::{Failed, Sink, write_all};
use chip_core::{OutOfMemory, Sample};
use event_tap::Text;
use mobile_core::Mobile;
use pilot_search::{Gate, near, search};
use run_ends::Status;
use run_replies::{Counts, Workspace, boxed_handset, count_events, trial_settings};
use short_code::Codes;
use std::alloc::Global;
use std::thread::Threads;

/// The number of first samples that the pilot search uses.
const SPAN: usize = 2048;

/// Passes the next samples of a cell, as many as `samples` has room for, to a handset, and counts
/// its events.
fn count_next(mobile: &mut Mobile, cell: &mut Cell, samples: &mut [Sample], counts: &mut Counts)
    requires left { cell.old.given + length samples.old ≤ cell.old.plan.link.samples }
    requires room { length samples.old ≤ has_room mobile.old }
    requires few { LeavesRoom counts.old (steps_left mobile.old) }
    ensures state { cell.new ≡ record cell.old { given = cell.old.given + length samples.old } }
    ensures room { has_room mobile.new + length samples.old ≡ has_room mobile.old }
    ensures few { LeavesRoom counts.new (steps_left mobile.new) }
    ensures told { (t : Tuning) (given : List TheEvent) →
        let all = made_samples cell.old.plan in
        let later = take (cell.old.given + length samples.old) all in
        StandsFor t mobile.old (take cell.old.given all) given → counts.old ≡ counts_of given →
        StandsFor t mobile.new later (events t later) × (counts.new ≡ counts_of (events t later)) }
{
    cell.fill(samples);
    count_events(mobile, samples, counts);
}

/// Passes all remaining samples of a cell to a handset through the buffer `piece`, and counts its
/// events.
fn count_rest(mobile: &mut Mobile, cell: &mut Cell, piece: &mut [Sample], counts: &mut Counts)
    requires piece { 0 < length piece.old }
    requires room { has_room mobile.old + cell.old.given ≡ cell.old.plan.link.samples }
    requires few { LeavesRoom counts.old (steps_left mobile.old) }
    ensures { (t : Tuning) →
        let before = take cell.old.given (made_samples cell.old.plan) in
        StandsFor t mobile.old before (events t before) → counts.old ≡ counts_of (events t before) →
        counts.new ≡ counts_of (events t (made_samples cell.old.plan)) }
{
    while cell.left() > 0 {
        let size = cell.left().min(piece.len() as u64) as usize;
        count_next(mobile, cell, &mut piece[..size], counts);
    }
}

/// Follows all samples of a number's cell, through `span` and `piece`, and returns the line that
/// reports what was received.
fn follow_cell<R: Threads + Sync, G: Gate + Sync>(
    rt: &R,
    alloc: Global,
    number: u64,
    workers: u8,
    cell: &mut Cell,
    codes: Codes,
    span: &mut [Sample],
    piece: &mut [Sample],
    gate: &G,
) -> Result<Text, OutOfMemory>
    requires workers { IsWorkers workers }
    requires cell { cell.old ≡ record { width = Sixteen; plan = trial_plan number; given = 0 } }
    requires span { length span.old ≡ 2048 }
    requires piece { 0 < length piece.old }
    ensures { IfOk result (λ line. line ≡ trial_line number) }
{
    let header = cell.header();
    cell.fill(span);
    let best = search(rt, alloc, span, &codes, workers, gate)?;
    let settings = trial_settings(number, &header);
    let paths = near(span, &codes, best, settings.fingers);
    let mut boxed = boxed_handset(alloc, settings, best, paths, codes)?;
    let mobile = &mut *boxed;
    let mut counts = Counts::none();
    count_events(mobile, span, &mut counts);
    count_rest(mobile, cell, piece, &mut counts);
    Ok(counts.summary(number, header.count, best.phase.get()))
}

/// Makes a number's cell, follows it, and returns the line that reports what was received. All
/// memory is allocated before the first sample is followed.
fn followed<R: Threads + Sync, G: Gate + Sync>(
    rt: &R,
    alloc: Global,
    number: u64,
    workers: u8,
    gate: &G,
) -> Result<Text, OutOfMemory>
    requires { IsWorkers workers }
    ensures { IfOk result (λ line. line ≡ trial_line number) }
{
    let mut cell = trial_cell(alloc, number)?;
    let Workspace {
        codes,
        mut span,
        mut piece,
    } = Workspace::new(alloc, SPAN)?;
    follow_cell(
        rt, alloc, number, workers, &mut cell, codes, &mut span, &mut piece, gate,
    )
}

/// Makes the link of a number, follows it with a handset, and writes one line with the counts of
/// what was received.
///
/// All memory is allocated before the line is written.
// Not inlined, so that the other commands do not carry its stack frame.
#[inline(never)]
pub fn trial<R: Threads + Sync, K: Sink, G: Gate + Sync>(
    rt: &R,
    alloc: Global,
    number: u64,
    workers: u8,
    sink: &mut K,
    gate: &G,
) -> Result<(), Status>
    requires { IsWorkers workers }
    ensures ok { OnOk result
        (Appends (K.written sink.old) (K.written sink.new) (trial_line number)) }
    ensures err { OnErr result
        (AppendsPrefix (K.written sink.old) (K.written sink.new) (trial_line number)) }
    ensures failed { IfErr result (λ status.
        (status ≡ Status.NoMemory) ⊎ (status ≡ Status.WriteFault)) }
    ensures memory { result ≡ Err Status.NoMemory → sink.new ≡ sink.old }
    ensures write_fault { result ≡ Err Status.WriteFault →
        Rose (K.faults sink.old) (K.faults sink.new) }
    ensures later { K.faults sink.old ≤ K.faults sink.new }
{
    let line = followed(rt, alloc, number, workers, gate)?;
    match write_all(sink, line.bytes()) {
        Ok(()) => Ok(()),
        Err(Failed) => Err(Status::WriteFault),
    }
}
