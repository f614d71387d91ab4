//! The soft values of a frame.

use chip_core::air::DATA_SYMBOLS;

/// The soft values of the 384 symbols of a frame of a paging or traffic channel, in the sent order:
/// products of sums of samples, without a unit, positive if a 0 is likelier (TIA/EIA-95-B, 7.1.3.4
/// and 7.1.3.5).
pub type FrameSofts = [i64; DATA_SYMBOLS];
