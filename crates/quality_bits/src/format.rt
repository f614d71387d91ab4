//! Frames of a traffic channel of any rate set: each rate has a format that specifies its frames.

ghost use Rattle.std.specs.Prelude.{◌≡◌, ◌*◌, ◌≤◌, ◌++◌, length};
ghost use Rattle.quality_bits.specs.Kinds.{quality_indicator};
ghost use Rattle.quality_bits.specs.Formats.{IsFormat, bits_in, repeated_in, format_by};
ghost use Rattle.quality_bits.specs.Formats.{format_codeword};

use crate::checking::append_check;
use crate::kind::Kind;
use chip_core::air::{DATA_SYMBOLS, TAIL_BITS};
use chip_core::{Bits, CheckForm};
use std::alloc::AllocError;

/// The number of symbols that a frame of rate set 2 has before some are dropped.
pub const REPEATED_SYMBOLS: usize = 576;

/// A rate of a rate set, and the composition of its frames.
///
/// TIA/EIA-95-B, 7.1.3.5 and 7.1.3.1.4. A frame of any rate ends with eight tail bits.
#[derive(Copy)]
pub struct FrameFormat<R> {
    /// The rate.
    pub rate: R,
    /// The number of information bits in a frame.
    pub information: u16,
    /// The kind of its quality indicator, if it has one.
    pub quality: Option<Kind>,
    /// The number of times that each code symbol occurs, before any are dropped.
    pub repeats: u8,
    /// Whether the third and the fifth of each six repeated symbols are dropped.
    pub drops: bool,
}

impl<R: Copy> Clone for FrameFormat<R> {
    ghost use Rattle.std.specs.Prelude.{◌≡◌, ⊤};

    ghost is_clone = { λ old new. new ≡ old };

    ghost is_infallible = { λ _. ⊤ };

    fn clone(&self) -> Result<Self, AllocError> {
        Ok(*self)
    }
}

impl<R: Copy> FrameFormat<R> {
    /// The format of a rate: a row of the table of its set.
    pub fn new(
        rate: R,
        information: u16,
        quality: Option<Kind>,
        repeats: u8,
        drops: bool,
    ) -> FrameFormat<R>
        ensures { result ≡ format_by rate
            (record { information = information; quality = quality; repeats = repeats }) drops }
    {
        FrameFormat {
            rate,
            information,
            quality,
            repeats,
            drops,
        }
    }

    /// Returns the number of repeated symbols in a frame, before any are dropped: 384 or 576.
    fn repeated_symbols(&self) -> u16
        ensures value { result ≡ repeated_in self.now }
        ensures most { result ≤ 576 }
    {
        if self.drops {
            REPEATED_SYMBOLS as u16
        } else {
            DATA_SYMBOLS as u16
        }
    }

    /// Returns the number of code symbols in a frame, two per bit.
    pub fn code_symbols(&self) -> usize
        requires { IsFormat self.now }
        ensures value { result ≡ 2 * bits_in self.now }
        ensures most { result ≤ 576 }
    {
        usize::from(self.repeated_symbols() / u16::from(self.repeats))
    }

    /// The information bits, followed by the quality indicator if frames of the rate have one.
    fn with_quality(&self, information: &Bits) -> Bits
        requires format { IsFormat self.now }
        requires count { length information.now ≡ self.now.information }
        ensures { result ≡ information.now ++ quality_indicator self.now.quality information.now }
    {
        let Some(kind) = self.quality else {
            return *information;
        };
        let mut bits = *information;
        append_check(kind, CheckForm::Plain, &mut bits);
        bits
    }

    /// Returns the bits of a frame with this information: information, quality indicator, tail
    /// (7.1.3.5).
    pub fn codeword(&self, information: &Bits) -> Bits
        requires format { IsFormat self.now }
        requires count { length information.now ≡ self.now.information }
        ensures value { result ≡ format_codeword self.now information.now }
        ensures count { length result ≡ bits_in self.now }
    {
        let mut bits = self.with_quality(information);
        bits.append_number(TAIL_BITS, 0);
        bits
    }
}
