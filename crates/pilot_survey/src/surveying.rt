//! The survey, shared by several workers at once.

ghost use Rattle.std.specs.Prelude.{◌≡◌, ◌<◌, ◌≤◌, ◌+◌, length, map, IfOk};
ghost use Rattle.std.specs.List.{range_with_len};
ghost use denote.Param.Send.{IsSync};
ghost use Rattle.pilot_survey.specs.Survey.{surveyed, ranking, survey_start};

use crate::measuring::measure_all;
use crate::rank::Rank;
use crate::ranking::{PILOTS, Survey};
use chip_core::{OutOfMemory, Phase, Sample};
use pilot_search::Gate;
use short_code::Codes;
use std::alloc::Global;
use std::thread::{Threads, join_mut};

/// Returns the first pilot of a worker. The pilots are divided among the workers as evenly as
/// possible.
fn start(worker: u8, workers: u8) -> u16
    requires worker { worker ≤ workers }
    requires workers { 0 < workers }
    ensures value { result ≡ survey_start worker workers }
    ensures most { result ≤ 512 }
{
    (PILOTS as u32 * u32::from(worker) / u32::from(workers)) as u16
}

/// Returns how many pilots the workers `first` to `end - 1` have.
fn share(first: u8, end: u8, workers: u8) -> u16
    requires order { first ≤ end }
    requires all { end ≤ workers }
    requires workers { 0 < workers }
    ensures { survey_start first workers + result ≡ survey_start end workers }
{
    start(end, workers) - start(first, workers)
}

/// The work that is divided: the samples, the phase of the pilot of offset 0, the width around each
/// pilot's phase, and the number of workers.
#[derive(Drop)]
struct Measurement<'a> {
    samples: &'a [Sample],
    codes: &'a Codes,
    base: Phase,
    width: u8,
    workers: u8,
}

/// Measures the pilots of one worker, and calls the gate when it begins and when it ends.
fn work<G: Gate>(task: &Measurement, worker: u8, gate: &G, ranks: &mut [Rank])
    requires lawful { (length task.now.samples.now ≤ 32768) × (task.now.width ≤ 31) }
    requires worker { worker < task.now.workers }
    requires room { survey_start worker task.now.workers + length ranks.old
        ≡ survey_start (worker + 1) task.now.workers }
    ensures { ranks.new ≡ map (surveyed task.now.samples.now task.now.base task.now.width)
        (range_with_len (survey_start worker task.now.workers) (length ranks.old)) }
{
    gate.arrive(worker);
    let first = start(worker, task.workers);
    measure_all(
        task.samples,
        task.codes,
        task.base,
        task.width,
        first,
        ranks,
    );
    gate.leave(worker, 0);
}

/// Runs the workers `first` to `end - 1`, each in a thread with its part of the ranks.
fn run<R: Threads + Sync, G: Gate + Sync>(
    rt: &R,
    task: &Measurement,
    first: u8,
    end: u8,
    gate: &G,
    ranks: &mut [Rank],
)
    requires lawful { (length task.now.samples.now ≤ 32768) × (task.now.width ≤ 31) }
    requires some { first < end }
    requires all { end ≤ task.now.workers }
    requires most { task.now.workers ≤ 64 }
    requires room { survey_start first task.now.workers + length ranks.old
        ≡ survey_start end task.now.workers }
    ensures { ranks.new ≡ map (surveyed task.now.samples.now task.now.base task.now.width)
        (range_with_len (survey_start first task.now.workers) (length ranks.old)) }
{
    if end - first == 1 {
        work(task, first, gate, ranks);
        return;
    }
    let middle = first + (end - first) / 2;
    let (left, right) = ranks.split_at_mut(usize::from(share(first, middle, task.workers)));
    join_mut(
        rt,
        &mut ||
            requires handles { IsSync R.row × IsSync G.row }
            requires lawful { (length task.now.samples.now ≤ 32768) × (task.now.width ≤ 31) }
            requires workers { (first < middle) × (middle ≤ task.now.workers)
                × (task.now.workers ≤ 64) }
            requires room { survey_start first task.now.workers + length left.now
                ≡ survey_start middle task.now.workers }
            ensures { left.exit.now ≡ map
                (surveyed task.entry.now.samples.now task.entry.now.base task.entry.now.width)
                (range_with_len (survey_start first task.entry.now.workers)
                (length left.entry.now)) }
        { run(rt, task, first, middle, gate, left) },
        &mut ||
            requires handles { IsSync R.row × IsSync G.row }
            requires lawful { (length task.now.samples.now ≤ 32768) × (task.now.width ≤ 31) }
            requires workers { (middle < end) × (end ≤ task.now.workers)
                × (task.now.workers ≤ 64) }
            requires room { survey_start middle task.now.workers + length right.now
                ≡ survey_start end task.now.workers }
            ensures { right.exit.now ≡ map
                (surveyed task.entry.now.samples.now task.entry.now.base task.entry.now.width)
                (range_with_len (survey_start middle task.entry.now.workers)
                (length right.entry.now)) }
        { run(rt, task, middle, end, gate, right) },
    );
}

/// Returns the ranks of all 512 pilots. They do not depend on the number of workers.
///
/// `base` is the phase of the pilot of offset 0. The own phase of the pilot of offset p is 64 p
/// chips below it, modulo 32,768. A pilot's energy is the largest at the phases from `width` chips
/// below its own phase to `width` above, with the least delta on a tie. The ranks are sorted by
/// falling energy, then by rising pilot. Worker k of w measures the pilots from floor(512 k / w) to
/// floor(512 (k + 1) / w) - 1. Each worker calls [`Gate::arrive`] once before its first pilot, and
/// [`Gate::leave`] once after its last, with 0, because it leaves no phase early.
///
/// Returns [`OutOfMemory`] if there is no memory for the ranks. Nothing else allocates.
pub fn survey<R: Threads + Sync, G: Gate + Sync>(
    rt: &R,
    alloc: Global,
    samples: &[Sample],
    codes: &Codes,
    base: Phase,
    width: u8,
    workers: u8,
    gate: &G,
) -> Result<Survey, OutOfMemory>
    requires few { length samples.now ≤ 32768 }
    requires width { width ≤ 31 }
    requires least { 1 ≤ workers }
    requires most { workers ≤ 64 }
    ensures { IfOk result (λ ranks. ranks ≡ ranking samples.now base width) }
{
    let nothing = Rank {
        pilot: 0,
        delta: 0,
        energy: 0,
    };
    let mut ranks = vec![in alloc; nothing; PILOTS]?;
    let task = Measurement {
        samples,
        codes,
        base,
        width,
        workers,
    };
    run(rt, &task, 0, workers, gate, ranks.as_mut_slice());
    Ok(Survey::of(ranks))
}
