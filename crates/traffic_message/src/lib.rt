//! The parts of traffic frames under multiplex option 1 (TIA/EIA-95-B, 7.1.3.5.11), the spelling
//! and reading of the traffic channel's signaling messages (7.7.3), and the framer that cuts their
//! capsules out of the signaling parts. The layouts are this project's own, after the standard's.
#![tactic(auto)]

mod body;
mod fields;
mod handoff;
mod in_traffic;
pub mod laws;
mod layouts;
mod message;
mod multiplex;
mod neighbors;
mod table;

pub use body::TrafficBody;
pub use fields::{DirectionFields, Head, InTrafficFields, Search, UpdateFields};
pub use handoff::HandoffDirection;
pub use in_traffic::InTraffic;
pub use message::TrafficMessage;
pub use multiplex::{Mux, split_frame};
pub use neighbors::NeighborUpdate;
/// The framer of the signaling parts of a traffic channel's frames (TIA/EIA-95-B, 7.7.3.1), each of
/// which begins with the SOM bit.
pub use quality_bits::{CapsuleFramer as SignalFramer, MessageFault};
pub use table::{
    HEAD_FIELDS, IN_TRAFFIC_FIELDS, SEARCH_FIELDS, TIME_FIELDS, UPDATE_FIELDS, head_name,
    in_traffic_name, search_name, time_name,
};
