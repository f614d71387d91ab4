//! What the workers of the search report, and which phases they leave unfinished.

ghost use Rattle.std.specs.Prelude.{◌<◌, ◌≤◌, length};

use crate::gates::{Counting, Meeting, NOTHING, Queue};
use chip_core::{OutOfMemory, Phase, Sample};
use pilot_search::{Gate, Shared, Tails, search, try_phase};
use short_code::Codes;
use std::alloc::Global;
use std::sync::atomic::Ordering;
use std::test::Fail;
use std::thread::Threads;

/// Searches these samples with `workers` workers, which pass this gate.
fn search_by<R: AllocGlobal + Threads + Sync, G: Gate + Sync>(
    rt: &R,
    samples: &[Sample],
    workers: u8,
    gate: &G,
) -> Result<(), Fail>
    requires few { length samples.now ≤ 32768 }
    requires least { 1 ≤ workers }
    requires most { workers ≤ 64 }
{
    let codes = Codes::new(rt.alloc())?;
    search(rt, rt.alloc(), samples, &codes, workers, gate)?;
    Ok(())
}

#[test]
fn workers_meet(rt: HostRuntime) -> Result<(), Fail> {
    for (workers, gate) in [
        (2, Meeting::of_two()),
        (5, Meeting::of_five()),
        (64, Meeting::of_all()),
    ] {
        search_by(&rt, &NOTHING, workers, &gate)?;
        assert!(rt; gate.is_over(), "{workers}");
    }
    Ok(())
}

#[test]
fn each_worker_arrives_and_leaves_once(rt: HostRuntime) -> Result<(), Fail> {
    let gate = Counting::new();
    search_by(&rt, &NOTHING, 64, &gate)?;
    assert_eq!(rt; gate.arrived.load(Ordering::SeqCst), 64);
    assert_eq!(rt; gate.left.load(Ordering::SeqCst), 64);
    Ok(())
}

/// 2,048 samples of the code from its chip `first` on, with an amplitude of 100.
fn code_from(codes: &Codes, first: u16) -> [Sample; 2048]
    requires { first < 32768 }
{
    let mut samples = [Sample { i: 0, q: 0 }; 2048];
    for t in 0..2048u16 {
        let (i, q) = codes.signs((first + t) % 32768);
        samples[usize::from(t)] = Sample {
            i: 100 * i16::from(i),
            q: 100 * i16::from(q),
        };
    }
    samples
}

#[test]
fn leaves_most_phases_after_the_code(rt: HostRuntime) -> Result<(), Fail> {
    let codes = Codes::new(rt.alloc())?;
    let gate = Counting::new();
    search_by(&rt, &code_from(&codes, 0), 1, &gate)?;
    assert_eq!(rt; gate.left.load(Ordering::SeqCst), 1);
    assert!(rt; gate.unfinished.load(Ordering::SeqCst) >= 30000);
    Ok(())
}

#[test]
fn leaves_no_phase_of_zeros(rt: HostRuntime) -> Result<(), Fail> {
    let gate = Counting::new();
    search_by(&rt, &[Sample { i: 0, q: 0 }; 2048], 1, &gate)?;
    assert_eq!(rt; gate.left.load(Ordering::SeqCst), 1);
    assert_eq!(rt; gate.unfinished.load(Ordering::SeqCst), 0);
    Ok(())
}

#[test]
#[tactic(auto, using(pilot_search::proofs::FoundLemmas::at_most_greatest))]
fn leaves_a_phase_that_is_surely_below(rt: HostRuntime) -> Result<(), Fail> {
    let codes = Codes::new(rt.alloc())?;
    let mut samples = [Sample { i: 0, q: 0 }; 128];
    samples[0].i = 1;
    samples[1].i = 1;
    let tails = Tails::of(&samples);
    assert_eq!(rt; (tails.get(0), tails.get(1)), (2, 0));
    let (shared, mut seat) = Shared::new(rt.alloc(), &samples, &codes)?;
    let zero = Phase::new(0).unwrap();
    let five = Phase::new(5).unwrap();
    let ten = Phase::new(10).unwrap();
    let first = try_phase(&shared, &mut seat, &samples, &codes, &tails, zero);
    let second = try_phase(&shared, &mut seat, &samples, &codes, &tails, five);
    let again = try_phase(&shared, &mut seat, &samples, &codes, &tails, zero);
    let last = try_phase(&shared, &mut seat, &samples, &codes, &tails, ten);
    assert_eq!(rt; (first, second), (Some(0), Some(8)));
    assert_eq!(rt; (again, last), (None, Some(8)));
    Ok(())
}

/// Returns the number of phases that a single worker leaves unfinished if it tries all in order.
#[tactic(auto, using(pilot_search::proofs::FoundLemmas::at_most_greatest))]
fn left_in_order(alloc: Global, samples: &[Sample], codes: &Codes) -> Result<u64, OutOfMemory>
    requires { length samples.now ≤ 32768 }
{
    let tails = Tails::of(samples);
    let (shared, mut seat) = Shared::new(alloc, samples, codes)?;
    let mut left = 0u64;
    for n in 0..32768u16 {
        let phase = Phase::new(n).unwrap();
        let energy = try_phase(&shared, &mut seat, samples, codes, &tails, phase);
        left = left.wrapping_add(u64::from(energy.is_none()));
    }
    Ok(left)
}

/// The next draw of noise, -100 to 100: the state becomes 1664525 times itself plus 1013904223.
fn drawn(state: &mut u32) -> i16 {
    *state = state.wrapping_mul(1_664_525).wrapping_add(1_013_904_223);
    ((*state >> 16) % 201) as i16 - 100
}

/// 2,048 samples of noise, drawn from a seed.
fn noise(seed: u32) -> [Sample; 2048] {
    let mut samples = [Sample { i: 0, q: 0 }; 2048];
    let mut state = seed;
    for t in 0..2048usize {
        let i = drawn(&mut state);
        let q = drawn(&mut state);
        samples[t] = Sample { i, q };
    }
    samples
}

/// Seeds of noise, the number of its samples that are searched, and the number of phases that one
/// worker leaves unfinished, as `tools/tests/test_left_phases` counts them by the rule.
static NOISE: [(u32, usize, u64); 3] = [(1, 2048, 27394), (2, 1500, 32450), (3, 640, 1636)];

#[test]
fn tells_how_many_phases_of_noise_it_leaves(rt: HostRuntime) -> Result<(), Fail> {
    let codes = Codes::new(rt.alloc())?;
    for (seed, count, left) in &NOISE {
        let noise = noise(*seed);
        let samples = noise.get(..*count).unwrap_or(&[]);
        let gate = Counting::new();
        search_by(&rt, samples, 1, &gate)?;
        let told = gate.unfinished.load(Ordering::SeqCst);
        assert_eq!(rt; told, *left, "{seed}");
        assert_eq!(rt;
            left_in_order(rt.alloc(), samples, &codes)?,
            *left,
            "{seed}"
        );
    }
    Ok(())
}

/// The best phase is the last of the fourth worker's, and each other worker begins when the one
/// after it has left. So it leaves its whole quarter unfinished, and each reports its own number.
#[test]
fn works_between_arriving_and_leaving(rt: HostRuntime) -> Result<(), Fail> {
    let codes = Codes::new(rt.alloc())?;
    let gate = Queue::new();
    let samples = code_from(&codes, 32767);
    search_by(&rt, &samples, 4, &gate)?;
    let mut reported = gate.unfinished.load(Ordering::SeqCst);
    for (worker, left) in [(0, 8192), (1, 8192), (2, 8192), (3, 4018)] {
        assert_eq!(rt; reported % 65_536, left, "worker {worker}");
        reported /= 65_536;
    }
    Ok(())
}
