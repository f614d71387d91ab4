//! Columns of metrics. A state's metric is the score of the best codeword into it, less what was
//! subtracted from all metrics.

ghost use Rattle.std.specs.Prelude.{◌≡◌, ◌<◌, ◌≤◌, ℕ, length, get_or, pos, ◌≤ℤ◌, ◌<ℤ◌};
ghost use Rattle.chip_core.specs.Sums.{IsFirstGreatest};
ghost use Rattle.viterbi.specs.Columns.{IsGreatest, forced_at};
ghost use Rattle.viterbi.specs.Survivors.{end_count};

use crate::codeword::Ends;

/// Returns whether the bit after the first `bit` bits may come only from states with oldest bit 0:
/// codewords that start from zeros lead into no other states.
pub fn is_forced(ends: Ends, bit: usize) -> bool
    ensures { result ≡ forced_at ends bit }
{
    match ends {
        Ends::Zero => bit < 8,
        Ends::Free => false,
    }
}

/// Sets the metrics before the first bit.
pub fn clear(column: &mut [i64])
    ensures long { length column.new ≡ length column.old }
    ensures zeros { (t : ℕ) → t < length column.old → get_or column.new t (pos 0) ≡ pos 0 }
{
    for metric in column.iter_mut() {
        *metric = 0;
    }
}

/// Returns the number of states, from the first on, in which a codeword may end.
pub fn end_states(ends: Ends) -> usize
    ensures { result ≡ end_count ends }
{
    match ends {
        Ends::Zero => 1,
        Ends::Free => 256,
    }
}

/// Returns which of the first `count` states has the largest metric, the first on a tie.
pub fn best_state(metrics: &[i64], count: usize) -> u8
    requires whole { length metrics.now ≡ 256 }
    requires some { 1 ≤ count }
    requires most { count ≤ 256 }
    ensures { IsFirstGreatest (λ t. get_or metrics.now t (pos 0)) count result }
{
    let mut best = 0usize;
    for state in 0..count {
        if metrics[best] < metrics[state] {
            best = state;
        }
    }
    best as u8
}

/// Returns the largest of the metrics.
pub fn greatest(metrics: &[i64]) -> i64
    requires { 1 ≤ length metrics.now }
    ensures { IsGreatest metrics.now result }
{
    let mut most = metrics[0];
    for metric in metrics {
        if most < *metric {
            most = *metric;
        }
    }
    most
}
