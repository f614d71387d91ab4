//! Interleaving: the order in which the repeated symbols are sent.
//!
//! TIA/EIA-95-B, 7.1.3.1.5: the repeated symbols are sent in another order, which moves neighbors
//! far apart.

ghost use Rattle.std.specs.Prelude.{◌≡◌, ◌+◌, ◌*◌, ◌<◌, ◌^◌};
ghost use Rattle.symbol_path.specs.SentOrder.{shape_of, size, reversed, address};

use crate::kinds::Kind;

/// Returns the lowest `width` bits of a number in reverse order.
fn reversed(width: u8, number: u16) -> u16
    requires { width < 16 }
    ensures value { result ≡ reversed width number }
    ensures below { result < 2 ^ width }
{
    let mut rest = number;
    let mut turned = 0;
    for _bit in 0..width {
        turned = 2 * turned + rest % 2;
        rest /= 2;
    }
    turned
}

/// Returns the number, in the order before interleaving, of the repeated symbol that a frame sends
/// as its symbol `i`.
///
/// TIA/EIA-95-B, 7.1.3.1.5: with m = 7 and J = 1 on the sync channel, and m = 6 and J = 6 on the
/// others, it is 2^m (i mod J) plus the m bits of floor(i / J) in reverse order.
pub fn address(kind: Kind, i: u16) -> u16
    requires { i < size (shape_of kind) }
    ensures value { result ≡ address (shape_of kind) i }
    ensures below { result < size (shape_of kind) }
{
    match kind {
        Kind::Sync => reversed(7, i),
        Kind::Data => 64 * (i % 6) + reversed(6, i / 6),
    }
}
