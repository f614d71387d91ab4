//! The first codewords after another bit, from the scores of the two states before.

ghost use Rattle.std.specs.Prelude.{◌≡◌, ◌<◌, ◌≤◌, ◌+◌, ◌*◌, ◌^◌, ◌+ℤ◌, ℕ, [], length, get_or, pos};
ghost use Rattle.std.specs.Prelude.{drop, unsigned_abs, int_lt, All};
ghost use Rattle.chip_core.specs.Bits.{digit};
ghost use Rattle.viterbi.specs.Columns.{taken_of};
ghost use Rattle.list_viterbi.specs.Merging.{second_is_next, merge};
ghost use Rattle.list_viterbi.specs.Picks.{pick_score, picks_from, picks_by, picks_into, HasPicks};
ghost use Rattle.list_viterbi.specs.Picks.{LeavesScoreRoom};

use crate::gains::gain_at;
use crate::scores::Scores;
use viterbi::symbol_gains::gains;

/// A number for each state after some bit. Its bit `r` is the oldest bit of the state that the
/// codeword at place `r` of the state's list comes from. Codewords from one state keep their order,
/// so the bits up to `r` also determine the codeword's place in that state's list.
pub type Choices = [u32; 256];

/// Returns the score of codeword `i` plus what a bit adds to it.
fn sum_at(scores: &Scores, i: u8, gain: i64) -> i64
    requires place { i < length scores.now }
    requires room { All (LeavesScoreRoom gain) scores.now }
    ensures value { result ≡ get_or scores.now i (pos 0) +ℤ gain }
    ensures below { i < 16 }
{
    *scores.get(i) + gain
}

/// Whether the next codeword comes from the previous state with oldest bit 1, from place `j` on,
/// rather than from the one with oldest bit 0, from place `i` on. The bit adds `odd_gain` and
/// `even_gain` to their scores.
fn takes_odd(even: &Scores, i: u8, even_gain: i64, odd: &Scores, j: u8, odd_gain: i64) -> bool
    requires even_place { i ≤ length even.now }
    requires odd_place { j ≤ length odd.now }
    requires even_room { All (LeavesScoreRoom even_gain) even.now }
    requires odd_room { All (LeavesScoreRoom odd_gain) odd.now }
    ensures { result ≡ second_is_next pick_score (drop i (picks_from 0 even_gain 0 even.now))
        (drop j (picks_from 1 odd_gain 0 odd.now)) }
{
    if j == odd.len() {
        return false;
    }
    if i == even.len() {
        return true;
    }
    sum_at(even, i, even_gain) < sum_at(odd, j, odd_gain)
}

/// Writes the scores of the first `k` codewords after another bit to `scores`, from those of the
/// previous states with oldest bit 0 and 1, to which the bit adds the gains. On a tie, codewords
/// from oldest bit 0 come first. Returns their choices.
fn picked(
    even: &Scores,
    even_gain: i64,
    odd: &Scores,
    odd_gain: i64,
    k: u8,
    scores: &mut Scores,
) -> u32
    requires few { k ≤ 16 }
    requires even_room { All (LeavesScoreRoom even_gain) even.now }
    requires odd_room { All (LeavesScoreRoom odd_gain) odd.now }
    ensures { HasPicks scores.new result (merge pick_score k (picks_from 0 even_gain 0 even.now)
        (picks_from 1 odd_gain 0 odd.now)) }
{
    if k <= even.len() && k <= odd.len() {
        return picked_of_full(even, even_gain, odd, odd_gain, k, scores);
    }
    scores.clear();
    let mut choices = 0u32;
    let mut weight = 1u32;
    let mut i = 0;
    let mut j = 0;
    for _n in 0..k {
        if takes_odd(even, i, even_gain, odd, j, odd_gain) {
            scores.push(sum_at(odd, j, odd_gain));
            choices += weight;
            weight *= 2;
            j += 1;
        } else if i < even.len() {
            scores.push(sum_at(even, i, even_gain));
            weight *= 2;
            i += 1;
        }
    }
    choices
}

/// Returns the greater of two scores, the first on a tie, and whether it is the second.
fn greater(even: i64, odd: i64) -> (i64, bool)
    ensures score { result.0 ≡ taken_of (int_lt even odd) even odd }
    ensures choice { result.1 ≡ int_lt even odd }
{
    let is_odd = even < odd;
    (if is_odd { odd } else { even }, is_odd)
}

/// Returns `weight` if `choice`, otherwise 0.
fn weight_of(choice: bool, weight: u32) -> u32
    ensures value { result ≡ digit choice * weight }
    ensures most { result ≤ weight }
{
    if choice { weight } else { 0 }
}

/// Does the same as `picked` for lists of at least `k` codewords, neither of which runs out.
fn picked_of_full(
    even: &Scores,
    even_gain: i64,
    odd: &Scores,
    odd_gain: i64,
    k: u8,
    scores: &mut Scores,
) -> u32
    requires few { k ≤ 16 }
    requires even_full { k ≤ length even.now }
    requires odd_full { k ≤ length odd.now }
    requires even_room { All (LeavesScoreRoom even_gain) even.now }
    requires odd_room { All (LeavesScoreRoom odd_gain) odd.now }
    ensures { HasPicks scores.new result (merge pick_score k (picks_from 0 even_gain 0 even.now)
        (picks_from 1 odd_gain 0 odd.now)) }
{
    scores.clear();
    let mut choices = 0u32;
    let mut weight = 1u32;
    let mut j = 0;
    for n in 0..k {
        let (score, is_odd) = greater(sum_at(even, n - j, even_gain), sum_at(odd, j, odd_gain));
        scores.push(score);
        choices += weight_of(is_odd, weight);
        weight *= 2;
        j += u8::from(is_odd);
    }
    choices
}

/// Writes the scores of the first `k` codewords into a state to `scores`, if the bit adds `gain`
/// after oldest bit 0. Returns their choices. Both generators, 753 and 561 octal (TIA/EIA-95-B,
/// 7.1.3.1.3.1), tap the oldest bit, so after oldest bit 1 the bit subtracts `gain`.
fn picked_into(column: &[Scores], state: u8, gain: i64, k: u8, scores: &mut Scores) -> u32
    requires whole { length column.now ≡ 256 }
    requires few { k ≤ 16 }
    requires small { unsigned_abs gain ≤ 2 ^ 62 }
    requires room { (t : ℕ) → t < 256 → All (LeavesScoreRoom gain) (get_or column.now t []) }
    ensures { HasPicks scores.new result (picks_by column.now gain k state) }
{
    let before = 2 * (state % 128) as usize;
    picked(&column[before], gain, &column[before + 1], -gain, k, scores)
}

/// Writes the scores and the choices of the first `k` codewords into all states after another bit,
/// from the soft values of its two symbols.
pub fn step(
    column: &[Scores],
    first: i64,
    second: i64,
    k: u8,
    next: &mut [Scores],
    choices: &mut Choices,
)
    requires whole { length column.now ≡ 256 }
    requires whole_next { length next.old ≡ 256 }
    requires few { k ≤ 16 }
    requires fits { unsigned_abs first + unsigned_abs second ≤ 2 ^ 62 }
    requires room { (t : ℕ) → t < 256 →
        All (λ s. unsigned_abs s + (unsigned_abs first + unsigned_abs second) ≤ 2 ^ 62)
        (get_or column.now t []) }
    ensures whole { length next.new ≡ 256 }
    ensures each { (t : ℕ) → t < 256 → HasPicks (get_or next.new t []) (get_or choices.new t 0)
        (picks_into column.now first second k t) }
{
    let gains = gains(first, second);
    for state in 0..256usize {
        let gain = gain_at(&gains, state as u8);
        choices[state] = picked_into(column, state as u8, gain, k, &mut next[state]);
    }
}
