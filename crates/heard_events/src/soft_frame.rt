//! A frame of a channel as it is received, before it is decoded.

use chip_core::PowerBits;
use frame_decoder::FrameSofts;
use symbol_path::PowerPlaces;

/// The power control bits of a frame of a traffic channel (TIA/EIA-95-B, 7.1.3.1.7).
#[derive(Clone, Copy)]
pub struct PowerControl {
    /// The places of the symbols that they replace, in rising order.
    pub replaced: PowerPlaces,
    /// The 16 bits. A bit is 0, which orders the handset to raise its power, exactly if the sum of
    /// its two raw soft values is above 0.
    pub power_bits: PowerBits,
}

/// A frame of a channel as it is received, before it is decoded.
#[derive(Clone, Copy)]
pub struct SoftFrame {
    /// Its number, counted from the channel's first frame after the mark.
    pub number: u64,
    /// The number of samples of the file taken when it has ended on every finger.
    pub end: u64,
    /// The soft values of its symbols, descrambled (7.1.3.1.6).
    pub descrambled: FrameSofts,
    /// Its power control bits; `None` for a frame of a paging channel.
    pub power: Option<PowerControl>,
}
