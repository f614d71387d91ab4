//! The plan of a cell that a script states.

use crate::series::Series;
use crate::traffic_frame::TrafficFrame;
use chip_core::{Bits, CheckForm, Pair};
use sync_message::SyncFields;

/// A cell, the link to it, and the channels that it sends.
#[derive(Drop)]
pub struct CellPlan {
    /// The identity of the cell.
    pub cell: CellIdentity,
    /// The link to the cell, and the number of samples wanted.
    pub link: LinkPlan,
    /// The pilot channel.
    pub pilot: PilotPlan,
    /// The sync channel, if the cell has one.
    pub sync: Option<SyncPlan>,
    /// The paging channels, in the script's order.
    pub paging: Series<PagingPlan>,
    /// The traffic channels.
    pub traffic: Series<TrafficPlan>,
}

/// A cell: its place among the others, and its clock.
///
/// Local chip 0 of the cell is system time 98,304 times `time`, and the long code's state is `lc`
/// there.
#[derive(Clone, Copy, PartialEq, Eq, Debug)]
pub struct CellIdentity {
    /// The offset of the pilot's codes, in units of 64 chips (TIA/EIA-95-B, 7.1.3.2.1): 0 to 511.
    pub pn: u16,
    /// The system time of local chip 0, in units of 80 ms.
    pub time: u64,
    /// The long code's state at local chip 0.
    pub lc: u64,
    /// The form of the 30-bit checks of messages.
    pub check30: CheckForm,
    /// The form of the 16-bit checks of messages.
    pub check16: CheckForm,
}

/// The link from a cell to a handset: sample t is the chip sent at local chip `start + t`, times a
/// complex number.
#[derive(Clone, Copy, PartialEq, Eq, Debug)]
pub struct LinkPlan {
    /// The factor by which the link multiplies each chip.
    pub factor: Pair,
    /// The local chip of the first sample.
    pub start: u64,
    /// The number of samples wanted.
    pub samples: u64,
}

/// A pilot channel (TIA/EIA-95-B, 7.1.3.2).
#[derive(Clone, Copy, PartialEq, Eq, Debug)]
pub struct PilotPlan {
    /// The gain of the channel.
    pub gain: u16,
}

/// A sync channel, which sends one message again and again (TIA/EIA-95-B, 7.1.3.3).
#[derive(Clone, Copy, PartialEq, Eq, Debug)]
pub struct SyncPlan {
    /// The gain of the channel.
    pub gain: u16,
    /// The message. Each transmission replaces PILOT_PN, SYS_TIME and LC_STATE with its own.
    pub message: SyncFields,
}

/// A page of a paging channel: a message's body, and where its capsule begins (TIA/EIA-95-B,
/// 7.7.2.1).
#[derive(Clone, Copy, PartialEq, Eq, Debug)]
pub struct Page {
    /// Whether the capsule begins right after the previous one, not with the next half-frame.
    pub follows: bool,
    /// The body.
    pub body: Bits,
}

/// A paging channel, which sends its pages again and again (TIA/EIA-95-B, 7.1.3.4).
#[derive(Drop)]
pub struct PagingPlan {
    /// The number of the channel, which is its Walsh row: 1 to 7.
    pub number: u8,
    /// The gain of the channel.
    pub gain: u16,
    /// The pages of a cycle, in order.
    pub pages: Series<Page>,
}

/// A traffic channel, which sends its frames again and again under the public long code mask of a
/// handset (TIA/EIA-95-B, 7.1.3.5).
#[derive(Drop)]
pub struct TrafficPlan {
    /// The channel's Walsh row: 1 to 63, and not 32.
    pub row: u8,
    /// The handset's electronic serial number, from which its mask is made (7.1.3.1.6).
    pub esn: u32,
    /// FRAME_OFFSET: the delay of the frames in steps of 1.25 ms, 0 to 15 (7.1.3.5.1).
    pub offset: u8,
    /// The gain of the channel.
    pub gain: u16,
    /// The frames of a cycle, in order. In a script they are all of one rate set.
    pub frames: Series<TrafficFrame>,
}
