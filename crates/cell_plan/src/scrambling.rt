//! Scrambling of the frames of paging and traffic channels.

ghost use Rattle.std.specs.Prelude.{◌≡◌, ◌<◌, ◌^◌, length};
ghost use Rattle.symbol_path.specs.Scrambling.{scrambling};
ghost use Rattle.cell_plan.specs.PageCycles.{scrambled};

use chip_core::Bits;
use chip_core::air::DATA_SYMBOLS;
use long_code::State;
use symbol_path::{ScramblingBits, scramble_bits};

/// Returns the symbols, each added modulo 2 to its chip.
fn mixed(symbols: &Bits, chips: &ScramblingBits) -> Bits
    requires { length symbols.now ≡ 384 }
    ensures value { result ≡ scrambled chips.now symbols.now }
    ensures count { length result ≡ 384 }
{
    let mut out = Bits::empty();
    for k in 0..symbols.len() {
        out.append(symbols.get(k) ^ chips[usize::from(k)]);
    }
    out
}

/// Returns the 384 symbols of a frame, scrambled by the long code from `state` on under a mask of
/// 42 bits (TIA/EIA-95-B, 7.1.3.1.6).
pub fn scrambled(state: &State, mask: u64, symbols: &Bits) -> Bits
    requires mask { mask < 2 ^ 42 }
    requires symbols { length symbols.now ≡ 384 }
    ensures value { result ≡ scrambled (scrambling state.now mask) symbols.now }
    ensures count { length result ≡ 384 }
{
    let mut chips = [false; DATA_SYMBOLS];
    scramble_bits(state, mask, &mut chips);
    mixed(symbols, &chips)
}
