//! Codewords.

use chip_core::Bits;
use chip_core::air::SPAN_BITS;

/// The largest number of bits of a codeword for which a decoder has room: those of three frames.
pub const MOST_BITS: usize = SPAN_BITS as usize;

/// The codewords that are allowed, by their ends.
#[derive(Clone, Copy, PartialEq, Eq, Debug)]
pub enum Ends {
    /// Codewords that start from eight zeros and end with eight zeros.
    Zero,
    /// Codewords with any eight start bits and any last bits.
    Free,
}

/// The eight bits that the encoder took before a codeword, and the bits of the codeword.
#[derive(Clone, Copy, PartialEq, Eq, Debug)]
pub struct Codeword {
    /// The eight start bits; bit 0 is the newest of them.
    pub start: u8,
    /// The bits after them, the oldest first.
    pub bits: Bits,
}

/// A shorter name for [`Codeword`].
pub type Word = Codeword;
