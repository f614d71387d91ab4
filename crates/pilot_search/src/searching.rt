//! The sweep by several workers at once, which skip phases that can't be the best.

ghost use Rattle.std.specs.Prelude.{◌≡◌, ◌<◌, ◌≤◌, ◌+◌, ℕ, length, IfOk};
ghost use denote.Param.Send.{IsSync};
ghost use Rattle.pilot_search.specs.BestIn.{IsBestIn};
ghost use Rattle.pilot_search.specs.Bounds.{AreTails, greatest};
ghost use Rattle.pilot_search.specs.Found.{IsFound, better_of, worker_start};
ghost use Rattle.pilot_search.specs.Knowledge.{IsHeld};

use crate::gate::Gate;
use crate::shared::{BestSeat, Shared};
use crate::sweeping::Best;
use crate::tails::Tails;
use crate::trying::try_phase;
use chip_core::air::CODE_CHIPS;
use chip_core::{OutOfMemory, Phase, Sample};
use short_code::Codes;
use std::alloc::Global;
use std::thread::{Threads, join};

/// The better result of two ranges: that of greater energy, and the left one on a tie. The left
/// range has the lesser phases.
fn better(left: Option<Best>, right: Option<Best>) -> Option<Best>
    ensures { result ≡ better_of left right }
{
    match (left, right) {
        (None, right) => right,
        (Some(left), None) => Some(left),
        (Some(left), Some(right)) => {
            if left.energy < right.energy {
                Some(right)
            } else {
                Some(left)
            }
        }
    }
}

/// The first phase of a worker: the phases are divided among the workers as evenly as possible.
fn start(worker: u8, workers: u8) -> u16
    requires worker { worker ≤ workers }
    requires workers { 0 < workers }
    ensures value { result ≡ worker_start worker workers }
    ensures most { result ≤ 32768 }
{
    (CODE_CHIPS as u32 * u32::from(worker) / u32::from(workers)) as u16
}

/// Tries the phase of this number.
fn try_number(
    shared: &Shared,
    seat: &mut BestSeat,
    samples: &[Sample],
    codes: &Codes,
    tails: &Tails,
    n: u16,
) -> Option<Best>
    requires samples { length samples.now ≤ 32768 }
    requires tails { AreTails samples.now tails.now }
    requires held { IsHeld seat.old shared.now }
    requires ceiling { seat.old.ceiling ≡ greatest samples.now }
    requires phase { n < 32768 }
    ensures found { IsFound samples.now n (n + 1) result }
    ensures held { IsHeld seat.new shared.now }
    ensures ceiling { seat.new.ceiling ≡ greatest samples.now }
{
    let phase = Phase::new(n).unwrap();
    let energy = try_phase(shared, seat, samples, codes, tails, phase)?;
    Some(Best { phase, energy })
}

/// Tries the phases from `from` to before `to`, in ascending order, and counts those that it skips.
fn work(
    shared: &Shared,
    seat: &mut BestSeat,
    samples: &[Sample],
    codes: &Codes,
    tails: &Tails,
    from: u16,
    to: u16,
) -> (Option<Best>, u16)
    requires samples { length samples.now ≤ 32768 }
    requires tails { AreTails samples.now tails.now }
    requires held { IsHeld seat.old shared.now }
    requires ceiling { seat.old.ceiling ≡ greatest samples.now }
    requires order { from ≤ to }
    requires top { to ≤ 32768 }
    ensures found { IsFound samples.now from to result.0 }
    ensures held { IsHeld seat.new shared.now }
    ensures ceiling { seat.new.ceiling ≡ greatest samples.now }
{
    let mut best = None;
    let mut unfinished = 0;
    for n in from..to {
        let found = try_number(shared, seat, samples, codes, tails, n);
        if found.is_none() {
            unfinished += 1;
        }
        best = better(best, found);
    }
    (best, unfinished)
}

/// Runs `count` workers, numbered from `first` on, each in a thread and with its own seat.
fn run<R: Threads + Sync, G: Gate + Sync>(
    rt: &R,
    shared: &Shared,
    seat: BestSeat,
    samples: &[Sample],
    codes: &Codes,
    tails: &Tails,
    first: u8,
    count: u8,
    workers: u8,
    gate: &G,
) -> (Option<Best>, BestSeat)
    requires samples { length samples.now ≤ 32768 }
    requires tails { AreTails samples.now tails.now }
    requires held { IsHeld seat shared.now }
    requires ceiling { seat.ceiling ≡ greatest samples.now }
    requires some { 0 < count }
    requires all { first + count ≤ workers }
    requires few { workers ≤ 64 }
    ensures found { IsFound samples.now (worker_start first workers)
        (worker_start (first + count) workers)
        result.0 }
    ensures held { IsHeld result.1 shared.now }
    ensures ceiling { result.1.ceiling ≡ greatest samples.now }
{
    let mut seat = seat;
    if count == 1 {
        gate.arrive(first);
        let from = start(first, workers);
        let to = start(first + 1, workers);
        let (best, unfinished) = work(shared, &mut seat, samples, codes, tails, from, to);
        gate.leave(first, unfinished);
        return (best, seat);
    }
    let few = count / 2;
    let middle = first + few;
    let others = count - few;
    let other = shared.split_seat(&mut seat);
    let (left, right) = join(
        rt,
        move || -> (Option<Best>, BestSeat)
            requires handles { IsSync R.row × IsSync G.row }
            requires samples { length samples.now ≤ 32768 }
            requires tails { AreTails samples.now tails.now }
            requires held { IsHeld seat shared.now }
            requires ceiling { seat.ceiling ≡ greatest samples.now }
            requires workers { (0 < few) × (first + few ≤ workers) × (workers ≤ 64) }
            ensures found { IsFound samples.entry.now (worker_start first workers)
                (worker_start (first + few) workers) result.0 }
            ensures held { IsHeld result.1 shared.entry.now }
            ensures ceiling { result.1.ceiling ≡ greatest samples.entry.now }
        {
            run(
                rt, shared, seat, samples, codes, tails, first, few, workers, gate,
            )
        },
        move || -> (Option<Best>, BestSeat)
            requires handles { IsSync R.row × IsSync G.row }
            requires samples { length samples.now ≤ 32768 }
            requires tails { AreTails samples.now tails.now }
            requires held { IsHeld other shared.now }
            requires ceiling { other.ceiling ≡ greatest samples.now }
            requires workers { (0 < others) × (middle + others ≤ workers) × (workers ≤ 64) }
            ensures found { IsFound samples.entry.now (worker_start middle workers)
                (worker_start (middle + others) workers) result.0 }
            ensures held { IsHeld result.1 shared.entry.now }
            ensures ceiling { result.1.ceiling ≡ greatest samples.entry.now }
        {
            run(
                rt, shared, other, samples, codes, tails, middle, others, workers, gate,
            )
        },
    );
    let (left, mut seat) = left;
    let (right, other) = right;
    shared.join_seat(&mut seat, other);
    (better(left, right), seat)
}

/// Returns the best of all phases, found by several workers at once: the result of
/// [`sweep`](crate::sweep) over all phases, for any number of workers and any interleaving.
///
/// Worker k of w tries the phases from floor(32768 k / w) to before floor(32768 (k + 1) / w) in
/// ascending order, by [`try_phase`]. The workers share one word, the largest energy that any of
/// them has published. No worker waits for another; the call returns when all are done. Each calls
/// [`Gate::arrive`] once before its first phase, and [`Gate::leave`] once after its last, with the
/// number of its phases for which `try_phase` returned `None`.
///
/// Returns [`OutOfMemory`] if there is no memory for the shared word or for 262,144 bytes of the
/// codes' points. Nothing else allocates.
pub fn search<R: Threads + Sync, G: Gate + Sync>(
    rt: &R,
    alloc: Global,
    samples: &[Sample],
    codes: &Codes,
    workers: u8,
    gate: &G,
) -> Result<Best, OutOfMemory>
    requires few { length samples.now ≤ 32768 }
    requires least { 1 ≤ workers }
    requires most { workers ≤ 64 }
    ensures { IfOk result (λ best. IsBestIn samples.now 0 32768 best.phase best.energy) }
{
    let tails = Tails::of(samples);
    let (shared, seat) = Shared::new(alloc, samples, codes)?;
    let (best, _seat) = run(
        rt, &shared, seat, samples, codes, &tails, 0, workers, workers, gate,
    );
    Ok(best.unwrap())
}
