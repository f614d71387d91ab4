//! Columns of decisions, and the codewords that they lead back to.

ghost use Rattle.viterbi.specs.Common.{digit};
ghost use Rattle.std.specs.Prelude.{◌≡◌, ◌<◌, ◌≤◌, ◌+◌, ◌*◌, ◌%◌, ◌^◌, ℕ, length};
ghost use Rattle.viterbi.specs.Columns.{took, path, path_origin};

use crate::codeword::MOST_BITS;
use chip_core::Bits;

/// The decisions of one bit of a codeword. Bit `s % 8` of byte `s / 8` says whether the best
/// codeword into state `s` comes from the previous state whose oldest bit is 1.
pub type Decisions = [u8; 32];

/// Returns whether a state came from the one with oldest bit 1.
fn is_taken(decisions: &Decisions, state: u8) -> bool
    ensures { result ≡ took decisions.now state }
{
    decisions[(state / 8) as usize] >> (state % 8) & 1 == 1
}

/// Returns the state before a state.
fn state_before(decisions: &Decisions, state: u8) -> u8
    ensures { result ≡ 2 * (state % 128) + digit (took decisions.now state) }
{
    2 * (state % 128) + u8::from(is_taken(decisions, state))
}

/// Writes the bits to which the columns lead back from a state into `bits`, and returns the state
/// before them.
fn trace_back(columns: &[Decisions], end: u8, bits: &mut [bool]) -> u8
    requires { length bits.old ≡ length columns.now }
    ensures start { result ≡ path_origin columns.now (length columns.now) end }
    ensures bits { bits.new ≡ path columns.now (length columns.now) end }
{
    let mut state = end;
    for back in 0..columns.len() {
        let at = columns.len() - 1 - back;
        bits[at] = state >= 128;
        state = state_before(&columns[at], state);
    }
    state
}

/// Returns the bits, in order, as a list; there are at most 576.
pub fn bits_of(path: &[bool]) -> Bits
    requires { length path.now ≤ 576 }
    ensures { result ≡ path.now }
{
    let mut bits = Bits::empty();
    for bit in path {
        bits.append(*bit);
    }
    bits
}

/// Returns the bits to which the columns, one for each bit, lead back from a state, and the state
/// before them.
pub fn traced(columns: &[Decisions], end: u8) -> (u8, Bits)
    requires { length columns.now ≤ 576 }
    ensures start { result.0 ≡ path_origin columns.now (length columns.now) end }
    ensures bits { result.1 ≡ path columns.now (length columns.now) end }
{
    let mut path = [false; MOST_BITS];
    let start = trace_back(columns, end, &mut path[..columns.len()]);
    (start, bits_of(&path[..columns.len()]))
}
