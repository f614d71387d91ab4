//! The messages of the paging channel (TIA/EIA-95-B, 7.7.2.3), the framer that cuts their capsules
//! out of half-frames (7.7.2.1), and the layout that lays them there.
#![tactic(auto)]

mod channels;
mod half_bits;
mod half_framer;
pub mod laws;
mod layout;
mod message;
mod neighbors;
mod other;
mod system;

pub use channels::{CHANNEL_FIELDS, ChannelFields, ChannelList};
pub use half_bits::HalfBits;
pub use half_framer::HalfFramer;
pub use layout::Layout;
pub use message::PagingMessage;
pub use neighbors::{NEIGHBOR_FIELDS, NeighborFields, NeighborList};
pub use other::{OtherFields, OtherMessage};
pub use quality_bits::MessageFault;
pub use system::{SYSTEM_FIELDS, SystemFields, SystemParameters, system_name};
