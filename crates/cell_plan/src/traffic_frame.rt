//! A frame of a traffic channel, of one of two rate sets.

ghost use Rattle.std.specs.Prelude.{◌≡◌, ◌<◌, ◌^◌, length};

use crate::scrambling::scrambled;
use chip_core::{Bits, PowerBits};
use long_code::State;
use symbol_path::{Rate, Rate2, encode_frame_into, encode2_into, format_of, with_power_bits};

/// A set of rates of traffic channels. All frames of a channel have rates of one set.
#[derive(Clone, Copy, PartialEq, Eq, Debug)]
pub enum RateSet {
    /// Rate set 1 (TIA/EIA-95-B, 7.1.3.5).
    One,
    /// Rate set 2, whose rates, quality indicators and dropped symbols are this project's profile.
    Two,
}

/// The rate of a frame of a traffic channel.
#[derive(Clone, Copy, PartialEq, Eq, Debug)]
pub enum FrameRate {
    /// A rate of rate set 1.
    SetOne(Rate),
    /// A rate of rate set 2.
    SetTwo(Rate2),
}

impl FrameRate {
    ghost use Rattle.cell_plan.specs.TrafficFrames.{information_bits_of, placed_symbols, rate_set};

    /// Returns the rate set that contains the rate.
    pub fn set(&self) -> RateSet
        ensures { result ≡ rate_set self.now }
    {
        match self {
            FrameRate::SetOne(_) => RateSet::One,
            FrameRate::SetTwo(_) => RateSet::Two,
        }
    }

    /// Returns the number of information bits in a frame: 172, 80, 40 or 16 in rate set 1, and 268,
    /// 126, 56 or 22 in rate set 2, including the reserved bit, which comes first.
    pub fn information_bits(&self) -> u16
        ensures { result ≡ information_bits_of self.now }
    {
        match self {
            FrameRate::SetOne(rate) => rate.information_bits(),
            FrameRate::SetTwo(rate) => rate.information_bits(),
        }
    }

    /// Returns the 384 symbols of a frame with this information before scrambling: the code
    /// symbols, repeated and interleaved, in rate set 2 with some of them dropped.
    #[tactic(auto, unfolding(crate::specs::TrafficFrames::placed_symbols))]
    fn placed(&self, information: &Bits) -> Bits
        requires { length information.now ≡ information_bits_of self.now }
        ensures value { result ≡ placed_symbols self.now information.now }
        ensures count { length result ≡ 384 }
    {
        let mut placed = Bits::empty();
        match self {
            FrameRate::SetOne(rate) => {
                encode_frame_into(&format_of(*rate), information, &mut placed);
            }
            FrameRate::SetTwo(rate) => encode2_into(*rate, information, &mut placed),
        }
        placed
    }
}

/// A frame of a traffic channel.
#[derive(Clone, Copy, PartialEq, Eq, Debug)]
pub struct TrafficFrame {
    /// The rate at which it is sent.
    pub rate: FrameRate,
    /// The information bits; the rate determines their number.
    pub information: Bits,
    /// The power control bit of each of its 16 groups of 24 symbols: 1 directs the handset to lower
    /// its power (7.1.3.1.7).
    pub power_bits: PowerBits,
}

impl TrafficFrame {
    ghost use Rattle.cell_plan.specs.TrafficFrames.{traffic_symbols, IsTrafficFrame};

    /// Returns the 384 symbols of the frame, given the long-code state at its beginning and a mask
    /// of 42 bits: the symbols in the order in which they are sent, scrambled, with some of them
    /// replaced by power control bits.
    #[tactic(auto, unfolding(crate::specs::TrafficFrames::traffic_symbols))]
    pub fn symbols(&self, state: &State, mask: u64) -> Bits
        requires frame { IsTrafficFrame self.now }
        requires mask { mask < 2 ^ 42 }
        ensures value { result ≡ traffic_symbols state.now mask self.now }
        ensures count { length result ≡ 384 }
    {
        let placed = self.rate.placed(&self.information);
        let mixed = scrambled(state, mask, &placed);
        with_power_bits(state, mask, &self.power_bits, &mixed)
    }
}
