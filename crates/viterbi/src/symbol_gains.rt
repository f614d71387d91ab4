//! The gain of a bit: what it adds to the score of a codeword, by the state into which it leads.
//!
//! A bit has two symbols, which depend on the state. In each block of eight states, from a multiple
//! of 8 on, the gains follow one of four patterns.

ghost use Rattle.std.specs.Prelude.{◌≡◌, ◌<◌, ◌≤◌, ◌+◌, ◌^◌, ℕ, get_or, pos, unsigned_abs};
ghost use Rattle.viterbi.specs.Lanes.{gain_by, lane_codes, patterns};

/// The number, 0 to 3, of the pattern that the gains of each block of eight states follow.
const PATTERNS: [u8; 32] = [
    0, 2, 3, 1, 3, 1, 0, 2, 1, 3, 2, 0, 2, 0, 1, 3, 3, 1, 0, 2, 0, 2, 3, 1, 2, 0, 1, 3, 1, 3, 2, 0,
];

/// Returns what two symbols with these soft values add to the score: for both 0, only the first 1,
/// only the second 1, and both 1.
pub fn gains(first: i64, second: i64) -> [i64; 4]
    requires { unsigned_abs first + unsigned_abs second ≤ 2 ^ 62 }
    ensures { (c : ℕ) → c < 4 → get_or result c (pos 0) ≡ gain_by first second c }
{
    [
        first + second,
        second - first,
        first - second,
        -first - second,
    ]
}

/// Returns the gains of a bit if the oldest bit is 0, for eight states of each pattern, from the
/// soft values of its two symbols (TIA/EIA-95-B, 7.1.3.1.3.1).
pub fn lane_gains(first: i64, second: i64) -> [i64; 32]
    requires { unsigned_abs first + unsigned_abs second ≤ 2 ^ 62 }
    ensures { (j : ℕ) → j < 32 →
        get_or result j (pos 0) ≡ gain_by first second (get_or lane_codes j 0) }
{
    let [a, b, c, d] = gains(first, second);
    [
        a, b, a, b, b, a, b, a, b, a, b, a, a, b, a, b, c, d, c, d, d, c, d, c, d, c, d, c, c, d,
        c, d,
    ]
}

/// Returns the pattern of the gains of the eight states from `8 * block` on.
pub fn pattern_of(block: usize) -> usize
    requires { block < 32 }
    ensures value { result ≡ get_or patterns block 0 }
    ensures small { result < 4 }
{
    PATTERNS[block] as usize
}
