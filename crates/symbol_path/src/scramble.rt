//! Data scrambling, and the places of the power control bits.

ghost use Rattle.std.specs.Prelude.{◌≡◌, ◌+◌, ◌*◌, ◌<◌, ◌≤◌, ◌^◌, ℕ, length, slice_index, All};
ghost use Rattle.std.specs.List.Sorted.{IsStrictlyIncreasing};
ghost use Rattle.long_code.specs.LongCode.{IsState, after};
ghost use Rattle.symbol_path.specs.Scrambling.{scrambling_chips, scrambling, group_scrambling};
ghost use Rattle.symbol_path.specs.Scrambling.{power_start, power_places};

use chip_core::air::{DATA_SYMBOLS, POWER_GROUP_CHIPS};
use long_code::State;

/// The scrambling bits of the 384 symbols of a frame, in the sent order: a symbol whose bit is
/// `true` is sent inverted (TIA/EIA-95-B, 7.1.3.1.6).
pub type ScramblingBits = [bool; DATA_SYMBOLS];

/// The places, from 0 to 383 in rising order, of the 32 symbols of a frame that its power control
/// bits replace, two for each bit (TIA/EIA-95-B, 7.1.3.1.7).
pub type PowerPlaces = [u16; 32];

/// The period of the long code, in chips.
const PERIOD: u64 = 4_398_046_511_103;

/// Writes the long-code chip under a 42-bit mask at the first chip of each symbol, and moves the
/// state past these symbols.
fn symbol_chips(state: &mut State, mask: u64, out: &mut [bool])
    requires { mask < 2 ^ 42 }
    ensures chips { out.new ≡ scrambling_chips state.old mask (length out.old) }
    ensures later { (n : ℕ) → after state.new n ≡ after state.old (64 * length out.old + n) }
    ensures state { 0 < length out.old → IsState state.new }
{
    for chip in out.iter_mut() {
        *chip = state.chip(mask);
        state.step_symbol();
    }
}

/// Computes the scrambling bits of the frame of 384 symbols that begins at a state of the long
/// code, under a mask of 42 bits.
///
/// TIA/EIA-95-B, 7.1.3.1.6: each symbol lasts 64 chips, and is added modulo 2 to the long-code chip
/// at the first of them.
pub fn scramble_bits(state: &State, mask: u64, out: &mut ScramblingBits)
    requires { mask < 2 ^ 42 }
    ensures { out.new ≡ scrambling state.now mask }
{
    let mut at = *state;
    symbol_chips(&mut at, mask, out);
}

/// Returns the place, 0 to 15 in its group of 24 symbols, at which a power control bit begins, from
/// the scrambling bits of the previous group.
///
/// TIA/EIA-95-B, 7.1.3.1.7: the last four of these bits are its binary digits, the last one being
/// the most significant.
pub fn power_start(previous: &[bool; 24]) -> u8
    ensures value { result ≡ power_start previous.now }
    ensures below { result < 16 }
{
    8 * u8::from(previous[23])
        + 4 * u8::from(previous[22])
        + 2 * u8::from(previous[21])
        + u8::from(previous[20])
}

/// Returns the scrambling bits of the power control group that begins at a state, and moves the
/// state past it.
fn group_bits(state: &mut State, mask: u64) -> [bool; 24]
    requires { mask < 2 ^ 42 }
    ensures bits { result ≡ group_scrambling state.old mask }
    ensures later { state.new ≡ after state.old 1536 }
{
    let mut bits = [false; 24];
    symbol_chips(state, mask, &mut bits);
    bits
}

/// Returns the places, in rising order, of the 32 symbols that 16 power control bits replace in the
/// frame that begins at a state.
///
/// TIA/EIA-95-B, 7.1.3.1.7: a frame has 16 groups of 24 symbols, and in each a power control bit
/// replaces two symbols. The scrambling bits of the previous group give the place at which it
/// begins; for the first group, that is the last group of the previous frame.
pub fn power_places(state: &State, mask: u64) -> PowerPlaces
    requires { mask < 2 ^ 42 }
    ensures value { result ≡ power_places state.now mask }
    ensures groups { (g : ℕ) → g < 16 → (24 * g ≤ slice_index result (2 * g)) ×
        (slice_index result (2 * g) < 24 * g + 16) }
    ensures pairs { (g : ℕ) → g < 16 →
        slice_index result (2 * g + 1) ≡ slice_index result (2 * g) + 1 }
    ensures rising { IsStrictlyIncreasing result }
    ensures below { All (λ place. place < 384) result }
{
    let mut before = *state;
    before.jump(PERIOD - POWER_GROUP_CHIPS);
    let mut places = [0; 32];
    for group in 0..16u16 {
        let start = u16::from(power_start(&group_bits(&mut before, mask)));
        let first = 24 * group + start;
        places[usize::from(2 * group)] = first;
        places[usize::from(2 * group + 1)] = first + 1;
    }
    places
}
