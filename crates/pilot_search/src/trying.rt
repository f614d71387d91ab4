//! A worker's attempt at one phase.

ghost use Rattle.pilot_search.specs.Common.{plus};
ghost use Rattle.std.specs.Prelude.{◌≡◌, ◌<◌, ◌≤◌, ◌+◌, ◌*◌, ◌%◌, ◌^◌, ℕ, length, unsigned_abs};
ghost use Rattle.std.specs.Prelude.{MatchOption, IfSome, IfNone};
ghost use Rattle.pilot_search.specs.Search.{energy};
ghost use Rattle.pilot_search.specs.Knowledge.{IsHeld};
ghost use Rattle.pilot_search.specs.SearchRun.{IsTry};
ghost use Rattle.pilot_search.specs.Bounds.{AreTails, HasBoundBelow, HasNoBoundBelow, IsSumOf};
ghost use Rattle.pilot_search.specs.Bounds.{square_of};

use crate::correlation::{correlation_by, norm_of};
use crate::points::Points;
use crate::shared::{BestSeat, Shared};
use crate::tails::{CHUNK, Tails};
use chip_core::air::CODE_CHIPS;
use chip_core::{Pair, Phase, Sample};
use short_code::Codes;

/// The least number of chunks between two checks, unless the chunks or the code's period end first.
const STRIDE: u16 = 4;

/// The largest energy that is possible if each part of `sum` may still change by `left`.
fn bound_of(sum: Pair, left: u64) -> u64
    requires i { unsigned_abs sum.i + left ≤ 2 ^ 31 }
    requires q { unsigned_abs sum.q + left ≤ 2 ^ 31 }
    ensures { result ≡
        square_of (unsigned_abs sum.i + left) + square_of (unsigned_abs sum.q + left) }
{
    let i = sum.i.unsigned_abs() + left;
    let q = sum.q.unsigned_abs() + left;
    i * i + q * q
}

/// Returns the number of chunks to add from chunk `j` on before the bound is checked again: up to
/// the first at which it would be below the limit if the sum were 0, and at most up to chunk
/// `last`.
fn stride(tails: &Tails, j: u16, last: u16, limit: u64) -> u16
    requires order { j < last }
    requires last { last < 512 }
    ensures some { 1 ≤ result }
    ensures most { j + result ≤ last }
{
    let none = Pair { i: 0, q: 0 };
    for strides in 1..128u16 {
        let next = j + STRIDE * strides;
        if next >= last {
            break;
        }
        if bound_of(none, tails.get(next)) < limit {
            return next - j;
        }
    }
    last - j
}

/// Adds two sums.
fn joined(one: Pair, other: Pair) -> Pair
    requires i { unsigned_abs one.i + unsigned_abs other.i ≤ 2 ^ 31 }
    requires q { unsigned_abs one.q + unsigned_abs other.q ≤ 2 ^ 31 }
    ensures value { result ≡ plus one other }
    ensures i_bound { unsigned_abs result.i ≤ 2 ^ 31 }
    ensures q_bound { unsigned_abs result.q ≤ 2 ^ 31 }
{
    Pair {
        i: one.i + other.i,
        q: one.q + other.q,
    }
}

/// Returns the phase of the code `chips` chips later.
fn later(phase: Phase, chips: u16) -> Phase
    requires { chips ≤ 32768 }
    ensures { result ≡ (phase + chips) % 32768 }
{
    Phase::new((phase.get() + chips) % CODE_CHIPS as u16).unwrap()
}

/// Returns `chunks`, or the number that fit before the code repeats if that is smaller; 1 if the
/// code repeats within the first of them. `phase` is the phase at the first one.
fn before_the_end(chunks: u16, phase: Phase) -> u16
    requires some { 1 ≤ chunks }
    ensures some { 1 ≤ result }
    ensures most { result ≤ chunks }
{
    let whole = (CODE_CHIPS as u16 - phase.get()) / CHUNK as u16;
    chunks.min(whole.max(1))
}

/// The sum over the chunks before the last one, or `None` if a bound checked on the way is below
/// the limit.
fn sum_unless_below(
    samples: &[Sample],
    codes: &Codes,
    points: &Points,
    tails: &Tails,
    last: u16,
    phase: Phase,
    limit: u64,
) -> Option<Pair>
    requires samples { length samples.now ≤ 32768 }
    requires last { 64 * last < length samples.now }
    requires tails { AreTails samples.now tails.now }
    ensures { MatchOption result (HasBoundBelow samples.now phase limit)
        (IsSumOf samples.now phase (64 * last)) }
{
    let mut sum = Pair { i: 0, q: 0 };
    let mut rest = samples;
    let mut j = 0;
    while j < last {
        if bound_of(sum, tails.get(j)) < limit {
            return None;
        }
        let first = later(phase, 64 * j);
        let chunks = before_the_end(stride(tails, j, last, limit), first);
        let (block, after) = rest.split_at(CHUNK * usize::from(chunks));
        let part = correlation_by(block, codes, points, first);
        sum.i += part.i;
        sum.q += part.q;
        rest = after;
        j += chunks;
    }
    Some(sum)
}

/// The energy at a phase, or `None` if a bound on it is below the limit.
///
/// The bound never rises from chunk to chunk, so the one before the last chunk decides.
fn energy_unless_below(
    samples: &[Sample],
    codes: &Codes,
    points: &Points,
    tails: &Tails,
    phase: Phase,
    limit: u64,
) -> Option<u64>
    requires samples { length samples.now ≤ 32768 }
    requires tails { AreTails samples.now tails.now }
    ensures { MatchOption result (HasBoundBelow samples.now phase limit)
        (λ e. (e ≡ energy samples.now phase) × HasNoBoundBelow samples.now phase limit) }
{
    if samples.is_empty() {
        return Some(0);
    }
    let last = ((samples.len() - 1) / CHUNK) as u16;
    let sum = sum_unless_below(samples, codes, points, tails, last, phase, limit)?;
    if bound_of(sum, tails.get(last)) < limit {
        return None;
    }
    let (_, chunk) = samples.split_at(CHUNK * usize::from(last));
    let part = correlation_by(chunk, codes, points, later(phase, 64 * last));
    Some(norm_of(joined(sum, part)))
}

/// Returns the energy of the samples at a phase after publishing it, or `None` if it can't be the
/// largest.
///
/// It reads the shared word once, then adds the samples up. If re and im are the sums so far, and
/// left is the sum of |I| + |Q| over the remaining samples, the energy is at most (|re| + left)^2 +
/// (|im| + left)^2. If before any chunk of 64 samples this bound is below the value read, another
/// phase has a greater energy, and this phase is skipped. If they are equal, it isn't skipped,
/// since it may be the first of several with the largest energy. The bound never rises, so it is
/// checked only before the first and the last chunk, around the code's repetition, and, at most
/// once in four chunks, where it would be below if the sums were 0.
pub fn try_phase(
    shared: &Shared,
    seat: &mut BestSeat,
    samples: &[Sample],
    codes: &Codes,
    tails: &Tails,
    phase: Phase,
) -> Option<u64>
    requires samples { length samples.now ≤ 32768 }
    requires tails { AreTails samples.now tails.now }
    requires seat { IsHeld seat.old shared.now }
    requires energy { energy samples.now phase ≤ seat.old.ceiling }
    ensures read { (read : ℕ) × (seat.old.floor ≤ read) × IsTry samples.now phase read result
        × MatchOption result
        (HasBoundBelow samples.now phase read × (seat.new.floor ≡ read))
        (λ e. HasNoBoundBelow samples.now phase read × (e ≡ energy samples.now phase) ×
        (read ≤ seat.new.floor) × (e ≤ seat.new.floor)) }
    ensures none { HasBoundBelow samples.now phase seat.old.floor → IfSome result (λ _. ⊥) }
    ensures only { IfNone result (HasBoundBelow samples.now phase seat.new.floor) }
    ensures ceiling { seat.new.ceiling ≡ seat.old.ceiling }
    ensures most { seat.new.floor ≤ seat.new.ceiling }
    ensures held { IsHeld seat.new shared.now }
{
    let read = shared.load(seat);
    let energy = energy_unless_below(samples, codes, &shared.points, tails, phase, read)?;
    shared.fetch_max(seat, energy);
    Some(energy)
}
