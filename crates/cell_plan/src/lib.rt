//! The plan of a cell, and what the cell sends according to it: the cell and the link to it, its
//! channels with their gains, messages, pages and frames, and the resulting symbols, chips and
//! samples.
//!
//! TIA/EIA-95-B, 7.1.3.1: the forward channels of a cell, spread by their Walsh rows and by the
//! pilot's codes.
#![tactic(auto)]

mod form;
mod plan;
mod scrambling;
mod series;
mod traffic_frame;

pub use form::{ChannelForm, PAGING_FORM, PILOT_FORM, SYNC_FORM};
pub use plan::{
    CellIdentity, CellPlan, LinkPlan, Page, PagingPlan, PilotPlan, SyncPlan, TrafficPlan,
};
pub use scrambling::scrambled;
pub use series::Series;
pub use traffic_frame::{FrameRate, RateSet, TrafficFrame};
