//! The events that a handset reports.

use chip_core::{Bits, Phase, PowerBits};
use paging_message::PagingMessage;
use pilot_sets::{ActiveList, PilotList};
use symbol_path::Rate;
use sync_message::SyncMessage;
use traffic_message::TrafficMessage;

/// An event: something that a handset found or received in the samples.
#[derive(Clone, Copy, PartialEq, Eq, Debug)]
pub enum Event {
    /// The pilot was found (TIA/EIA-95-B, 7.1.3.2): the first event, before any sample is taken.
    Pilot {
        /// The phase of the pilot's codes at the first sample.
        phase: Phase,
        /// The energy of the samples' correlation with the codes at that phase.
        energy: u64,
    },
    /// A message of the sync channel was received (TIA/EIA-95-B, 7.7.1).
    Sync {
        /// The number of samples taken when the message became known.
        at: u64,
        /// The whole capsule: length, body and check.
        capsule: Bits,
        /// The message that the capsule spells.
        message: SyncMessage,
    },
    /// A message of the paging channel was received (TIA/EIA-95-B, 7.7.2).
    Paging {
        /// The number of samples taken when the message became known.
        at: u64,
        /// The whole capsule: length, body and check.
        capsule: Bits,
        /// The message that the capsule spells.
        message: PagingMessage,
    },
    /// A frame of the traffic channel was received (TIA/EIA-95-B, 7.1.3.5).
    Frame {
        /// The number of samples taken when the frame ended.
        at: u64,
        /// The rate at which it was sent; 9,600 bits a second if the frame is bad.
        rate: Rate,
        /// Whether its symbols agree with the soft values: its score is above 0.
        good: bool,
        /// The information bits.
        bits: Bits,
        /// Its 16 power control bits; a 1 orders the handset to lower its power.
        commands: PowerBits,
    },
    /// A message of the traffic channel was received (TIA/EIA-95-B, 7.7.3).
    Traffic {
        /// The number of samples taken when the last frame that carries the message ended.
        at: u64,
        /// The whole capsule: length, body and check.
        capsule: Bits,
        /// The message that the capsule spells.
        message: TrafficMessage,
    },
    /// The pilot sets changed, or a report of them is due (after TIA/EIA-95-B, 6.6.6.2).
    Sets {
        /// The number of samples taken when the pilot sets were evaluated.
        at: u64,
        /// The time of this evaluation, in units of 80 ms.
        time: u64,
        /// The active set after the evaluation.
        active: ActiveList,
        /// The candidate set after it.
        candidate: PilotList,
        /// Whether a pilot strength report is due.
        report: bool,
    },
}
