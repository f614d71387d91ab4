//! A channel of the reference base station, after the mark.

use chip_core::Traffic;
use chip_core::air::FRAME_OFFSET_CHIPS;

/// A channel of the reference base station whose frames are received from the mark on.
#[derive(Clone, Copy, PartialEq, Eq, Debug)]
pub enum CodeChannel {
    /// The paging channel of this number, 1 to 7 (TIA/EIA-95-B, 7.1.3.4).
    Paging(u8),
    /// A traffic channel (7.1.3.5).
    Traffic(Traffic),
}

impl CodeChannel {
    ghost use Rattle.std.specs.Prelude.{◌≡◌, ◌<◌, ◌≤◌};
    ghost use Rattle.heard_events.specs.Channels.{IsLawful, has_power_control, offset_of, row_of};

    /// Returns the Walsh row on which the channel is sent.
    pub fn row(&self) -> u8
        requires { IsLawful self.now }
        ensures value { result ≡ row_of self.now }
        ensures below { result < 64 }
    {
        match self {
            CodeChannel::Paging(number) => *number,
            CodeChannel::Traffic(traffic) => traffic.row,
        }
    }

    /// Returns the number of chips from the mark to the start of frame 0.
    pub fn offset(&self) -> u64
        requires { IsLawful self.now }
        ensures value { result ≡ offset_of self.now }
        ensures most { result ≤ 23040 }
    {
        match self {
            CodeChannel::Paging(_) => 0,
            CodeChannel::Traffic(traffic) => FRAME_OFFSET_CHIPS * u64::from(traffic.offset),
        }
    }

    /// Whether power control bits replace some of its symbols.
    pub fn has_power_control(&self) -> bool
        ensures { result ≡ has_power_control self.now }
    {
        match self {
            CodeChannel::Paging(_) => false,
            CodeChannel::Traffic(_) => true,
        }
    }
}
