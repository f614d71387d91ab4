//! The rates of rate set 2, and the formats of their frames.

ghost use Rattle.std.specs.Prelude.{◌≡◌, ◌*◌, ◌≤◌};
ghost use Rattle.quality_bits.specs.Formats.{IsFormat};
ghost use Rattle.symbol_path.specs.RatesTwo.{format_of2};

use quality_bits::{FrameFormat, Kind, REPEATED_SYMBOLS};

/// A data rate of a traffic channel of rate set 2. The lower the rate, the more often each code
/// symbol is repeated.
#[derive(Clone, Copy, PartialEq, Eq, Debug)]
pub enum Rate2 {
    /// 14,400 bits a second.
    R14400,
    /// 7,200 bits a second.
    R7200,
    /// 3,600 bits a second.
    R3600,
    /// 1,800 bits a second.
    R1800,
}

/// Returns the format of the frames of a rate of rate set 2. The reserved bit counts as an
/// information bit.
pub fn format_of2(rate: Rate2) -> FrameFormat<Rate2>
    ensures format { IsFormat result }
    ensures value { result ≡ format_of2 rate }
{
    match rate {
        Rate2::R14400 => FrameFormat::new(rate, 268, Some(Kind::Q12), 1, true),
        Rate2::R7200 => FrameFormat::new(rate, 126, Some(Kind::Q10), 2, true),
        Rate2::R3600 => FrameFormat::new(rate, 56, Some(Kind::Q8), 4, true),
        Rate2::R1800 => FrameFormat::new(rate, 22, Some(Kind::Q6), 8, true),
    }
}

impl Rate2 {
    ghost use Rattle.symbol_path.specs.RatesTwo.{repeats_of2, information_of2, quality_of2};
    ghost use Rattle.symbol_path.specs.RatesTwo.{symbols_of};

    /// Returns how often each code symbol is repeated: 1, 2, 4 or 8 times.
    pub fn repeats(&self) -> u8
        ensures value { result ≡ repeats_of2 self.now }
        ensures some { 1 ≤ result }
        ensures most { result ≤ 8 }
    {
        format_of2(*self).repeats
    }

    /// Returns how many code symbols a frame has, two to a bit: 576, 288, 144 or 72.
    pub fn code_symbols(&self) -> u16
        ensures value { result ≡ symbols_of self.now }
        ensures most { result ≤ 576 }
    {
        REPEATED_SYMBOLS as u16 / u16::from(self.repeats())
    }

    /// Returns how many bits a second are sent, frame quality indicators and encoder tails
    /// included.
    pub fn bits_per_second(&self) -> u16
        ensures { result * repeats_of2 self.now ≡ 14400 }
    {
        14400 / u16::from(self.repeats())
    }

    /// Returns how many information bits a frame has, the reserved bit first: 268, 126, 56 or 22.
    pub fn information_bits(&self) -> u16
        ensures { result ≡ information_of2 self.now }
    {
        format_of2(*self).information
    }

    /// Returns the quality indicator of the frames, of 12, 10, 8 or 6 bits.
    pub fn quality(&self) -> Option<Kind>
        ensures { result ≡ quality_of2 self.now }
    {
        format_of2(*self).quality
    }
}
