//! Columns of choices, and the codewords that they lead back to.

ghost use Rattle.std.specs.Prelude.{◌≡◌, ◌<◌, ◌≤◌, ◌%◌, length, get_or, map};
ghost use Rattle.chip_core.specs.Bits.{bit_of};
ghost use Rattle.list_viterbi.specs.Picks.{ones_below, pointer_of};
ghost use Rattle.list_viterbi.specs.Columns.{list_path, list_origin, entry_at};

use crate::codewords::{Codewords, Entry};
use crate::finds::{Find, Finds};
use crate::picking::Choices;
use viterbi::{Codeword, MOST_BITS, bits_of};

/// Bit `place` of a state's choices.
fn is_odd(choices: u32, place: u8) -> bool
    requires { place < 32 }
    ensures { result ≡ bit_of choices place }
{
    choices >> place & 1 == 1
}

/// Returns how many of the codewords below a place come from the state with oldest bit 1.
fn ones_below(choices: u32, place: u8) -> u8
    requires { place ≤ 32 }
    ensures value { result ≡ ones_below choices place }
    ensures most { result ≤ place }
{
    let mut ones = 0;
    for lower in 0..place {
        ones += u8::from(is_odd(choices, lower));
    }
    ones
}

/// Returns where the codeword at a place of a state's list comes from: twice the place in the list
/// of the state before, plus that state's oldest bit.
fn pointer_at(choices: &Choices, state: u8, place: u8) -> u8
    ensures { result ≡ pointer_of (get_or choices.now state 0) (place % 16) }
{
    let chosen = choices[state as usize];
    let place = place % 16;
    let ones = ones_below(chosen, place);
    if is_odd(chosen, place) {
        2 * ones + 1
    } else {
        2 * (place - ones)
    }
}

/// Writes the bits to which the columns lead back from a place in a state's list into `bits`, and
/// returns the state before them.
fn trace_back(columns: &[Choices], end: u8, place: u8, bits: &mut [bool]) -> u8
    requires { length bits.old ≡ length columns.now }
    ensures start { result ≡ list_origin columns.now (length columns.now) end place }
    ensures bits { bits.new ≡ list_path columns.now (length columns.now) end place }
{
    let mut state = end;
    let mut rank = place;
    for back in 0..columns.len() {
        let at = columns.len() - 1 - back;
        bits[at] = state >= 128;
        let pointer = pointer_at(&columns[at], state, rank);
        state = 2 * (state % 128) + pointer % 2;
        rank = pointer / 2;
    }
    state
}

/// Returns the codeword to which the columns, one for each bit, lead back from a place in a state's
/// list, with its score.
fn traced(columns: &[Choices], find: &Find) -> Entry
    requires { length columns.now ≤ 576 }
    ensures { result ≡ entry_at columns.now find.now }
{
    let mut path = [false; MOST_BITS];
    let start = trace_back(columns, find.state, find.rank, &mut path[..columns.len()]);
    let codeword = Codeword {
        start: start.reverse_bits(),
        bits: bits_of(&path[..columns.len()]),
    };
    Entry {
        word: codeword,
        score: find.score,
    }
}

/// Returns the codewords to which the columns lead back, with their scores.
pub fn all_traced(columns: &[Choices], finds: &Finds) -> Codewords
    requires { length columns.now ≤ 576 }
    ensures { result ≡ map (entry_at columns.now) finds.now }
{
    let mut codewords = Codewords::empty();
    for i in 0..finds.len() {
        codewords.push(traced(columns, finds.get(i)));
    }
    codewords
}
