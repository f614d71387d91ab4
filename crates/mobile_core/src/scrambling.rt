//! The scrambling of paging and traffic channels.

ghost use Rattle.mobile_core.specs.Common.{paging_mask, traffic_mask, IsSoundMark};
ghost use Rattle.std.specs.Prelude.{◌≡◌, ◌<◌, ◌≤◌, ◌^◌};
ghost use Rattle.heard_events.specs.TrafficStreams.{frame_state};

use chip_core::Traffic;
use chip_core::air::FRAME_OFFSET_CHIPS;
use heard_events::Mark;
use long_code::{paging_mask, traffic_mask};
use reception::Scrambling;

/// The scrambling of paging channel 1 to 7, whose frame 0 begins at the mark (TIA/EIA-95-B,
/// 7.1.3.1.6).
pub fn paging_scrambling(channel: u8, mark: &Mark) -> Scrambling
    requires first { 1 ≤ channel }
    requires last { channel ≤ 7 }
    requires mark { IsSoundMark mark.now }
    ensures state { result.state ≡ mark.now.state }
    ensures mask { result.mask ≡ paging_mask channel mark.now.pilot }
    ensures below { result.mask < 2 ^ 42 }
{
    Scrambling {
        state: mark.state,
        mask: paging_mask(channel, mark.pilot),
    }
}

/// The scrambling of a traffic channel, whose frame 0 begins at its offset after the mark
/// (TIA/EIA-95-B, 7.1.3.1.6).
pub fn traffic_scrambling(traffic: &Traffic, mark: &Mark) -> Scrambling
    requires mark { IsSoundMark mark.now }
    ensures state { result.state ≡ frame_state traffic.now mark.now 0 }
    ensures mask { result.mask ≡ traffic_mask traffic.now.esn }
    ensures below { result.mask < 2 ^ 42 }
{
    let mut state = mark.state;
    state.jump(FRAME_OFFSET_CHIPS * u64::from(traffic.offset));
    Scrambling {
        state,
        mask: traffic_mask(traffic.esn),
    }
}
