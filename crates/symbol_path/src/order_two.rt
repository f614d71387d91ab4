//! Repetition, dropping and interleaving of rate set 2: the order in which code symbols are sent.

ghost use Rattle.std.specs.Prelude.{◌≡◌, ◌<◌};
ghost use Rattle.symbol_path.specs.RatesTwo.{symbols_of};
ghost use Rattle.symbol_path.specs.SentOrderTwo.{kept_symbol, repeated_symbol, place2};

use crate::kinds::Kind;
use crate::order::address;
use crate::rate_two::Rate2;

/// Returns which of the repeated symbols is kept as symbol `a`: the third and the fifth of each six
/// are dropped.
fn kept_symbol(a: u16) -> u16
    requires { a < 384 }
    ensures value { result ≡ kept_symbol a }
    ensures below { result < 576 }
{
    let kept = match a % 4 {
        0 => 0,
        1 => 1,
        2 => 3,
        _ => 5,
    };
    6 * (a / 4) + kept
}

/// Returns which of the repeated symbols a frame sends as its symbol `i`.
///
/// A frame sends its kept symbols in the order of rate set 1 (TIA/EIA-95-B, 7.1.3.1.5).
pub fn repeated_symbol(i: u16) -> u16
    requires { i < 384 }
    ensures value { result ≡ repeated_symbol i }
    ensures below { result < 576 }
{
    kept_symbol(address(Kind::Data, i))
}

/// Returns which code symbol a frame sends as its symbol `i`.
pub fn place2(rate: Rate2, i: u16) -> u16
    requires { i < 384 }
    ensures value { result ≡ place2 rate i }
    ensures below { result < symbols_of rate }
{
    repeated_symbol(i) / u16::from(rate.repeats())
}
