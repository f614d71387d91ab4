//! One step of the search, on lanes of eight states.
//!
//! The states of block `k`, the eight from `8 * k` on, and those of block `16 + k` are reached from
//! the same sixteen states, from `16 * k` on: eight butterflies of the trellis.

ghost use Rattle.viterbi.specs.Common.{bit_of};
ghost use Rattle.std.specs.Prelude.{◌≡◌, ◌<◌, ◌≤◌, ◌+◌, ◌*◌, ◌%◌, ◌^◌, ◌+ℤ◌, ◌-ℤ◌, ℕ, false, map};
ghost use Rattle.std.specs.Prelude.{length, get_or, pos, int_lt, FitsSigned};
ghost use Rattle.std.specs.Int.{w64};
ghost use lib.Lanes.{Each1, Each2, zip2};
ghost use Rattle.viterbi.specs.Lanes.{Fit, sum_at, difference_at, gain_by, lane_codes, patterns};
ghost use Rattle.viterbi.specs.Lanes.{AreEveryOther, AreGreater};
ghost use Rattle.viterbi.specs.Columns.{CanStep, IsColumnStep, taken_of, wants, metric_into};
ghost use Rattle.viterbi.specs.Columns.{choice_into};

use crate::decisions::Decisions;
use crate::metrics::greatest;
use crate::symbol_gains::{lane_gains, pattern_of};
use std::simd::prelude::*;

/// Returns the greater of each pair of metrics, the first on a tie, and a bit for each pair:
/// whether it is the second.
fn selected_lanes(even: i64x8, odd: i64x8) -> (i64x8, u64)
    requires even_long { length even ≡ 8 }
    requires odd_long { length odd ≡ 8 }
    requires even_fit { Each1 (λ x. FitsSigned w64 x) even }
    requires odd_fit { Each1 (λ x. FitsSigned w64 x) odd }
    ensures metrics { result.0 ≡ zip2 (λ a b. taken_of (int_lt a b) a b) even odd }
    ensures choices { (l : ℕ) → l < 8 → bit_of result.1 l ≡ get_or (zip2 int_lt even odd) l false }
{
    let less = even.simd_lt(odd);
    (less.select(odd, even), less.to_bitmask())
}

/// Returns eight metrics of states with oldest bit 0 plus the gains, and eight of states with
/// oldest bit 1 minus the gains. Both generators, 753 and 561 octal (TIA/EIA-95-B, 7.1.3.1.3.1),
/// tap the oldest bit, so if it is 1 both symbols are inverted.
fn moved_lanes(a: i64x8, b: i64x8, gain: i64x8) -> (i64x8, i64x8)
    requires even { Each2 (λ x y. Fit x y (x +ℤ y)) a gain }
    requires odd { Each2 (λ x y. Fit x y (x -ℤ y)) b gain }
    ensures even { result.0 ≡ zip2 (λ x y. x +ℤ y) a gain }
    ensures odd { result.1 ≡ zip2 (λ x y. x -ℤ y) b gain }
{
    (a + gain, b - gain)
}

/// Returns the lanes, each less `number`.
fn lessened(lanes: i64x8, number: i64) -> i64x8
    requires long { length lanes ≡ 8 }
    requires fit { Each1 (λ x. Fit x number (x -ℤ number)) lanes }
    ensures { result ≡ map (λ x. x -ℤ number) lanes }
{
    lanes - i64x8::splat(number)
}

/// Returns eight pairs of neighbors from a place on, split into their first and second entries.
fn parted(column: &[i64], at: usize) -> (i64x8, i64x8)
    requires room { at + 16 ≤ length column.now }
    requires fit { (t : ℕ) → t < length column.now → FitsSigned w64 (get_or column.now t (pos 0)) }
    ensures even { AreEveryOther (λ x. x) column.now at result.0 }
    ensures odd { AreEveryOther (λ x. x) column.now (at + 1) result.1 }
{
    let low = i64x8::from_slice(&column[at..]);
    let high = i64x8::from_slice(&column[at + 8..]);
    low.deinterleave(high)
}

/// Returns eight pairs of neighbors from a place on, split into their first and second entries,
/// each less `top`.
fn neighbours(column: &[i64], at: usize, top: i64) -> (i64x8, i64x8)
    requires room { at + 16 ≤ length column.now }
    requires fit { (t : ℕ) → t < length column.now → FitsSigned w64 (get_or column.now t (pos 0)) }
    requires less { (t : ℕ) → t < length column.now →
        FitsSigned w64 (get_or column.now t (pos 0) -ℤ top) }
    ensures even { AreEveryOther (λ x. x -ℤ top) column.now at result.0 }
    ensures odd { AreEveryOther (λ x. x -ℤ top) column.now (at + 1) result.1 }
{
    let (even, odd) = parted(column, at);
    (lessened(even, top), lessened(odd, top))
}

/// Returns the metrics of eight states after another bit, and a bit for each: whether it is reached
/// from the state with oldest bit 1. `a` and `b` are the metrics of the states before them with
/// oldest bit 0 and 1, and the gains are those for oldest bit 0. If `FORCED`, no state is reached
/// from oldest bit 1.
fn selected_block<const FORCED: bool>(a: i64x8, b: i64x8, gain: i64x8) -> (i64x8, u64)
    requires a_long { length a ≡ 8 }
    requires b_long { length b ≡ 8 }
    requires gain_long { length gain ≡ 8 }
    requires even { Each2 (λ x y. Fit x y (x +ℤ y)) a gain }
    requires odd { Each2 (λ x y. Fit x y (x -ℤ y)) b gain }
    ensures long { length result.0 ≡ 8 }
    ensures metrics { (l : ℕ) → l < 8 → get_or result.0 l (pos 0) ≡
        taken_of (wants FORCED (sum_at a gain l) (difference_at b gain l))
        (sum_at a gain l) (difference_at b gain l) }
    ensures choices { (l : ℕ) → l < 8 →
        bit_of result.1 l ≡ wants FORCED (sum_at a gain l) (difference_at b gain l) }
{
    let (even, odd) = moved_lanes(a, b, gain);
    if FORCED {
        (even, 0)
    } else {
        selected_lanes(even, odd)
    }
}

/// Returns the gains of a bit for the eight states of a block, if the oldest bit is 0.
fn gains_of(gains: &[i64; 32], block: usize) -> i64x8
    requires block { block < 32 }
    requires fit { (j : ℕ) → j < 32 → FitsSigned w64 (get_or gains.now j (pos 0)) }
    ensures long { length result ≡ 8 }
    ensures lanes { (l : ℕ) → l < 8 →
        get_or result l (pos 0) ≡ get_or gains.now (8 * get_or patterns block 0 + l) (pos 0) }
{
    let pattern = pattern_of(block);
    i64x8::from_slice(&gains[8 * pattern..])
}

/// Returns the metrics of the eight states of a block after another bit, less `top`, and a bit for
/// each: whether it is reached from the state with oldest bit 1.
fn block_step<const FORCED: bool>(
    column: &[i64],
    top: i64,
    first: i64,
    second: i64,
    gains: &[i64; 32],
    block: usize,
) -> (i64x8, u64)
    requires column { CanStep column.now top first second }
    requires block { block < 32 }
    requires gains { (j : ℕ) → j < 32 →
        get_or gains.now j (pos 0) ≡ gain_by first second (get_or lane_codes j 0) }
    ensures long { length result.0 ≡ 8 }
    ensures metrics { (l : ℕ) → l < 8 →
        get_or result.0 l (pos 0)
        ≡ metric_into FORCED column.now first second (8 * block + l) -ℤ top }
    ensures choices { (l : ℕ) → l < 8 →
        bit_of result.1 l ≡ choice_into FORCED column.now first second (8 * block + l) }
{
    let (a, b) = neighbours(column, 16 * (block % 16), top);
    selected_block::<FORCED>(a, b, gains_of(gains, block))
}

/// Returns the greater of each pair of lanes.
fn greater(one: i64x8, other: i64x8) -> i64x8
    requires one_long { length one ≡ 8 }
    requires other_long { length other ≡ 8 }
    requires one_fit { Each1 (λ x. FitsSigned w64 x) one }
    requires other_fit { Each1 (λ x. FitsSigned w64 x) other }
    ensures { AreGreater one other result }
{
    let (lanes, _) = selected_lanes(one, other);
    lanes
}

/// Advances all states by one bit, with the soft values of its two symbols, and subtracts `top`,
/// the largest metric, from every metric. Returns the largest of the new ones. If `FORCED`, each
/// state is reached from the one with oldest bit 0.
fn step_all<const FORCED: bool>(
    column: &[i64],
    top: i64,
    first: i64,
    second: i64,
    next: &mut [i64],
    choices: &mut Decisions,
) -> i64
    requires column { CanStep column.now top first second }
    requires next { length next.old ≡ 256 }
    ensures { IsColumnStep FORCED column.now top first second next.new choices.new result }
{
    let gains = lane_gains(first, second);
    let mut most = i64x8::splat(i64::MIN);
    for k in 0..16usize {
        let (metrics, bits) = block_step::<FORCED>(column, top, first, second, &gains, k);
        let (upper_metrics, upper_bits) = block_step::<FORCED>(
            column,
            top,
            first,
            second,
            &gains,
            16 + k,
        );
        most = greater(most, greater(metrics, upper_metrics));
        metrics.copy_to_slice(&mut next[8 * k..]);
        upper_metrics.copy_to_slice(&mut next[8 * (16 + k)..]);
        choices[k] = (bits % 256) as u8;
        choices[16 + k] = (upper_bits % 256) as u8;
    }
    greatest(&most.to_array())
}

/// Advances all states by one bit, as `step_all` does.
pub fn step(
    column: &[i64],
    top: i64,
    first: i64,
    second: i64,
    forced: bool,
    next: &mut [i64],
    choices: &mut Decisions,
) -> i64
    requires column { CanStep column.now top first second }
    requires next { length next.old ≡ 256 }
    ensures { IsColumnStep forced column.now top first second next.new choices.new result }
{
    if forced {
        step_all::<true>(column, top, first, second, next, choices)
    } else {
        step_all::<false>(column, top, first, second, next, choices)
    }
}
