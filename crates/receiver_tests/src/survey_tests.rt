//! What the workers of the survey report.

ghost use Rattle.std.specs.Prelude.{◌≤◌, length};

use crate::gates::{Counting, Meeting, NOTHING, Watch};
use chip_core::{Phase, Sample};
use pilot_search::Gate;
use pilot_survey::survey;
use short_code::Codes;
use std::sync::atomic::Ordering;
use std::test::Fail;
use std::thread::Threads;

/// Surveys these samples from phase 0 on with `workers` workers, which pass this gate.
fn survey_by<R: AllocGlobal + Threads + Sync, G: Gate + Sync>(
    rt: &R,
    samples: &[Sample],
    width: u8,
    workers: u8,
    gate: &G,
) -> Result<(), Fail>
    requires few { length samples.now ≤ 32768 }
    requires width { width ≤ 31 }
    requires least { 1 ≤ workers }
    requires most { workers ≤ 64 }
{
    let codes = Codes::new(rt.alloc())?;
    let base = Phase::new(0).ok_or("a phase")?;
    survey(rt, rt.alloc(), samples, &codes, base, width, workers, gate)?;
    Ok(())
}

#[test]
fn workers_meet(rt: HostRuntime) -> Result<(), Fail> {
    for (workers, gate) in [
        (2, Meeting::of_two()),
        (5, Meeting::of_five()),
        (64, Meeting::of_all()),
    ] {
        survey_by(&rt, &NOTHING, 10, workers, &gate)?;
        assert!(rt; gate.is_over(), "{workers}");
    }
    Ok(())
}

#[test]
fn each_worker_arrives_and_leaves_once(rt: HostRuntime) -> Result<(), Fail> {
    let gate = Counting::new();
    survey_by(&rt, &NOTHING, 1, 64, &gate)?;
    assert_eq!(rt; gate.arrived.load(Ordering::SeqCst), 64);
    assert_eq!(rt; gate.left.load(Ordering::SeqCst), 64);
    assert_eq!(rt; gate.unfinished.load(Ordering::SeqCst), 0);
    Ok(())
}

/// In between, a worker measures 256 pilots at 63 phases each over 32,768 samples.
#[test]
fn works_between_arriving_and_leaving(rt: HostRuntime) -> Result<(), Fail> {
    let gate = Watch::new();
    survey_by(&rt, &[Sample { i: 0, q: 0 }; 32768], 31, 2, &gate)?;
    assert!(rt; gate.turns.load(Ordering::SeqCst) >= 100_000);
    Ok(())
}
