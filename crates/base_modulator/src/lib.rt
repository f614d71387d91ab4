//! The base station: a script names a cell and the link to it, and the cell's samples are what a
//! handset would receive. [`make`] writes them as a sample file.
//!
//! TIA/EIA-95-B, 7.1.3.1: the forward channels of a cell, spread by their Walsh rows and by the
//! pilot's codes. `cell_plan` defines plans and what is sent by them, `cell_script` reads scripts,
//! and `cell_samples` makes the samples.
#![tactic(auto)]

mod cell;
pub mod laws;
mod making;
mod trial;

pub use cell::Cell;
pub use cell_plan::{
    CellIdentity, CellPlan, ChannelForm, FrameRate, LinkPlan, Page, PagingPlan, PilotPlan, RateSet,
    Series, SyncPlan, TrafficFrame, TrafficPlan,
};
pub use cell_script::{ScriptFault, script_text};
pub use making::make;
pub use trial::trial_cell;
pub use trial_link::{trial_script, trial_serial_number};
