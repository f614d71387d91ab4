//! The handset: takes samples and returns events.
#![tactic(auto)]

mod followed;
mod mobile;
mod paging_receiver;
mod receive;
mod scrambling;
mod soft_handoff;
mod sync_receiver;
mod traffic_receiver;

pub use heard_events::{CodeChannel, Event, Mark, Settings, Traffic, laws};
pub use mobile::{HeardRing, Mobile, Step};
pub use scrambling::{paging_scrambling, traffic_scrambling};
