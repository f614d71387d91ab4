//! The rates of rate set 1, and the composition of their frames.

ghost use Rattle.std.specs.Prelude.{◌≡◌, ◌*◌, ◌≤◌};
ghost use Rattle.quality_bits.specs.Formats.{IsFormat};
ghost use Rattle.quality_bits.specs.TrafficCodewords.{format_of};

use crate::format::FrameFormat;
use crate::kind::Kind;
use chip_core::air::{DATA_SYMBOLS, FRAME_BITS};

/// A data rate of a paging or traffic channel of rate set 1, in bits per second.
///
/// TIA/EIA-95-B, 7.1.3.1.4: the lower the rate, the more often each code symbol is sent.
#[derive(Clone, Copy, PartialEq, Eq, Debug)]
pub enum Rate {
    /// 9,600 bits per second.
    R9600,
    /// 4,800 bits per second.
    R4800,
    /// 2,400 bits per second.
    R2400,
    /// 1,200 bits per second.
    R1200,
}

impl Rate {
    ghost use Rattle.quality_bits.specs.TrafficCodewords.{repeats_of, information_of, quality_of};

    /// Returns the number of information bits in a frame of a traffic channel: 172, 80, 40 or 16
    /// (TIA/EIA-95-B, 7.1.3.5).
    pub fn information_bits(&self) -> u16
        ensures { result ≡ information_of self.now }
    {
        format_of(*self).information
    }

    /// Returns the number of bits sent per second, including frame quality indicators and encoder
    /// tails.
    pub fn bits_per_second(&self) -> u16
        ensures { result * repeats_of self.now ≡ 9600 }
    {
        9600 / u16::from(self.repeats())
    }

    /// Returns the number of bits in a frame of 20 ms, including its frame quality indicator and
    /// encoder tail: 192, 96, 48 or 24.
    pub fn frame_bits(&self) -> u16
        ensures { result * repeats_of self.now ≡ 192 }
    {
        FRAME_BITS / u16::from(self.repeats())
    }

    /// The quality indicator of the frames of a traffic channel; `None` at the two lower rates,
    /// whose frames have none (7.1.3.5).
    pub fn quality(&self) -> Option<Kind>
        ensures { result ≡ quality_of self.now }
    {
        format_of(*self).quality
    }

    /// Returns the number of code symbols in a frame, two per bit: 384, 192, 96 or 48.
    pub fn code_symbols(&self) -> u16
        ensures { result * repeats_of self.now ≡ 384 }
    {
        DATA_SYMBOLS as u16 / u16::from(self.repeats())
    }

    /// The number of times that each code symbol is sent: 1, 2, 4 or 8.
    pub fn repeats(&self) -> u8
        ensures value { result ≡ repeats_of self.now }
        ensures some { 1 ≤ result }
        ensures most { result ≤ 8 }
    {
        format_of(*self).repeats
    }
}

/// The frame formats of rate set 1 (TIA/EIA-95-B, 7.1.3.1.4 and 7.1.3.5).
pub fn format_of(rate: Rate) -> FrameFormat<Rate>
    ensures value { result ≡ format_of rate }
    ensures format { IsFormat result }
{
    match rate {
        Rate::R9600 => FrameFormat::new(rate, 172, Some(Kind::Q12), 1, false),
        Rate::R4800 => FrameFormat::new(rate, 80, Some(Kind::Q8), 2, false),
        Rate::R2400 => FrameFormat::new(rate, 40, None, 4, false),
        Rate::R1200 => FrameFormat::new(rate, 16, None, 8, false),
    }
}
