//! The search on lanes compared with a plain loop: the work that `tools/bench` times.

ghost use Rattle.std.specs.Prelude.{◌<◌};

use chip_core::Sample;
use pilot_search::sweep;
use short_code::Codes;
use std::test::Fail;

/// The energy at a phase, computed by a plain loop over the samples.
fn plain_energy(samples: &[Sample; 2048], codes: &Codes, phase: u16) -> u64
    requires { phase < 32768 }
{
    let mut i = 0i64;
    let mut q = 0i64;
    for (t, sample) in samples.iter().enumerate() {
        let (code_i, code_q) = codes.table()[(usize::from(phase) + t) % 32768];
        let (code_i, code_q) = (i64::from(code_i), i64::from(code_q));
        let (sample_i, sample_q) = (i64::from(sample.i), i64::from(sample.q));
        i = i
            .wrapping_add(sample_i * code_i)
            .wrapping_add(sample_q * code_q);
        q = q
            .wrapping_add(sample_q * code_i)
            .wrapping_sub(sample_i * code_q);
    }
    i.wrapping_mul(i)
        .wrapping_add(q.wrapping_mul(q))
        .unsigned_abs()
}

/// 2,048 samples of the code, the first one at the code's last chip, with an amplitude of 100.
fn last_chip_first(codes: &Codes) -> [Sample; 2048] {
    let mut samples = [Sample { i: 0, q: 0 }; 2048];
    for t in 0..2048u16 {
        let (i, q) = codes.signs((32767 + t) % 32768);
        samples[usize::from(t)] = Sample {
            i: 100 * i16::from(i),
            q: 100 * i16::from(q),
        };
    }
    samples
}

// `tools/bench` times this test and the next one: the same work by the plain loop and on lanes.
#[test]
fn plain_loops_find_the_best_of_all_phases(rt: HostRuntime) -> Result<(), Fail> {
    let codes = Codes::new(rt.alloc())?;
    let samples = last_chip_first(&codes);
    let mut best = 0;
    let mut most = 0;
    for phase in 0..32768u16 {
        let energy = plain_energy(&samples, &codes, phase);
        if energy > most {
            best = phase;
            most = energy;
        }
    }
    assert_eq!(rt; best, 32767);
    assert_eq!(rt; most, 167772160000);
    Ok(())
}

#[test]
fn lanes_find_the_best_of_all_phases(rt: HostRuntime) -> Result<(), Fail> {
    let codes = Codes::new(rt.alloc())?;
    let samples = last_chip_first(&codes);
    let best = sweep(&samples, &codes, 0, 32768);
    assert_eq!(rt; best.phase.get(), 32767);
    assert_eq!(rt; best.energy, 167772160000);
    Ok(())
}
