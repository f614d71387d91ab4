//! The power control bits of a frame.

/// The 16 power control bits of a frame of a traffic channel, one for each power control group of
/// 1.25 ms, in order: `false` orders the handset to raise its power, and `true` to lower it
/// (TIA/EIA-95-B, 7.1.3.1.7).
pub type PowerBits = [bool; 16];
