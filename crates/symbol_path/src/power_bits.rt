//! Replaces symbols by power control bits.

ghost use Rattle.std.specs.Prelude.{◌≡◌, ◌<◌, ◌^◌, length};
ghost use Rattle.symbol_path.specs.Scrambling.{symbol_or_power_bit, with_power_bits};

use crate::scramble::{PowerPlaces, power_places};
use chip_core::air::{DATA_SYMBOLS, POWER_GROUP_SYMBOLS};
use chip_core::{Bits, PowerBits};
use long_code::State;

/// Returns symbol `i` of a frame with power control bits: the bit of its group if `i` is one of the
/// places, otherwise the symbol itself.
fn symbol_or_power_bit(
    replaced: &PowerPlaces,
    power_bits: &PowerBits,
    symbols: &Bits,
    i: u16,
) -> bool
    requires place { i < 384 }
    requires symbols { length symbols.now ≡ 384 }
    ensures { result ≡ symbol_or_power_bit replaced.now power_bits.now symbols.now i }
{
    if replaced.contains(&i) {
        power_bits[usize::from(i / POWER_GROUP_SYMBOLS)]
    } else {
        symbols.get(i)
    }
}

/// Returns the 384 symbols of the frame that begins at a state of the long code, with 16 power
/// control bits, each of which replaces two symbols.
///
/// TIA/EIA-95-B, 7.1.3.1.7: the bits replace symbols after scrambling. A 1 commands the handset to
/// lower its power.
pub fn with_power_bits(state: &State, mask: u64, power_bits: &PowerBits, symbols: &Bits) -> Bits
    requires mask { mask < 2 ^ 42 }
    requires symbols { length symbols.now ≡ 384 }
    ensures value { result ≡ with_power_bits state.now mask power_bits.now symbols.now }
    ensures count { length result ≡ 384 }
{
    let replaced = power_places(state, mask);
    let mut out = Bits::empty();
    for i in 0..DATA_SYMBOLS as u16 {
        out.append(symbol_or_power_bit(&replaced, power_bits, symbols, i));
    }
    out
}
