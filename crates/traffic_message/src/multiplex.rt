//! The parts of a traffic frame.

ghost use Rattle.std.specs.Prelude.{◌≡◌, ◌≤◌, cond, length, Some, None};
ghost use Rattle.quality_bits.specs.TrafficCodewords.{information_of};
ghost use Rattle.traffic_message.specs.Multiplex.{primary_bits, split, split_9600};

use chip_core::Bits;
use quality_bits::Rate;

/// The parts of a frame's information bits under multiplex option 1.
///
/// TIA/EIA-95-B, 7.1.3.5.11.
#[derive(Clone, Copy, PartialEq, Eq, Debug)]
pub struct Mux {
    /// Primary traffic.
    pub primary: Bits,
    /// Signaling, if the frame has any: 88, 128, 152 or 168 bits.
    pub signal: Option<Bits>,
    /// Secondary traffic, if the frame has any, of the same sizes.
    pub secondary: Option<Bits>,
}

/// Splits the information bits of a frame into its parts: at 9600 bits per second by the leading
/// bits MM, TT and TM; at the other rates all bits are primary traffic.
#[tactic(auto, unfolding(crate::specs::Multiplex::split))]
pub fn split_frame(rate: Rate, bits: &Bits) -> Mux
    requires { length bits.now ≡ information_of rate }
    ensures { result ≡ split rate bits.now }
{
    match rate {
        Rate::R9600 => split_full(bits),
        _ => only_primary(*bits),
    }
}

/// Splits the information bits of a frame of 9600 bits per second into its parts.
fn split_full(bits: &Bits) -> Mux
    requires { length bits.now ≡ 172 }
    ensures { result ≡ split_9600 bits.now }
{
    if !bits.get(0) {
        return only_primary(bits.part(1, 171));
    }
    let size = primary_size(bits.get(2), bits.get(3));
    mixed(
        bits.get(1),
        bits.part(4, size),
        bits.part(4 + size, 168 - size),
    )
}

/// A frame of only primary traffic.
fn only_primary(primary: Bits) -> Mux
    ensures { result ≡ record { primary = primary; signal = None; secondary = None } }
{
    Mux {
        primary,
        signal: None,
        secondary: None,
    }
}

/// A frame of primary traffic, with secondary traffic if TT is 1, otherwise with signaling.
fn mixed(tt: bool, primary: Bits, other: Bits) -> Mux
    ensures { result ≡ record {
      primary = primary;
      signal = cond tt None (Some other);
      secondary = cond tt (Some other) None;
    } }
{
    Mux {
        primary,
        signal: if tt { None } else { Some(other) },
        secondary: if tt { Some(other) } else { None },
    }
}

/// Returns the number of bits of primary traffic for the mode bits TM.
fn primary_size(tm1: bool, tm0: bool) -> u16
    ensures value { result ≡ primary_bits tm1 tm0 }
    ensures most { result ≤ 80 }
{
    match (tm1, tm0) {
        (false, false) => 80,
        (false, true) => 40,
        (true, false) => 16,
        (true, true) => 0,
    }
}
