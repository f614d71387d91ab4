//! The gain of a bit: what it adds to the score of a codeword, by the state into which it leads.

ghost use Rattle.std.specs.Prelude.{◌≡◌, ◌<◌, get_or, pos};
ghost use Rattle.viterbi.specs.Lanes.{lane_code_of};

use viterbi::symbol_gains::pattern_of;

/// The codes of eight states, for each pattern, if the oldest bit is 0: 1 if the first symbol is 1,
/// plus 2 if the second is.
const CODES: [u8; 32] = [
    0, 1, 0, 1, 1, 0, 1, 0, 1, 0, 1, 0, 0, 1, 0, 1, 2, 3, 2, 3, 3, 2, 3, 2, 3, 2, 3, 2, 2, 3, 2, 3,
];

/// Returns a state's code.
fn code_of(state: u8) -> usize
    ensures value { result ≡ lane_code_of state }
    ensures small { result < 4 }
{
    let pattern = pattern_of((state / 8) as usize);
    CODES[8 * pattern + (state % 8) as usize] as usize
}

/// Returns what a bit adds to the score of a codeword into a state, if the oldest bit is 0.
pub fn gain_at(gains: &[i64; 4], state: u8) -> i64
    ensures { result ≡ get_or gains.now (lane_code_of state) (pos 0) }
{
    gains[code_of(state)]
}
