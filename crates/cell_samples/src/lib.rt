//! The samples of a cell, made from its plan: the bits and symbols of its channels' frames, the
//! channels' levels block by block, and the samples of their sum, as a handset receives them.
//!
//! TIA/EIA-95-B, 7.1.3.1.8 and 7.1.3.1.9: each channel is spread by its Walsh row, and their sum by
//! the pilot's codes.
#![tactic(auto)]

mod block;
mod channel;
mod continued;
mod frame_source;
mod page_cycle;
mod samples;
mod sendings;
mod symbol_source;
mod traffic_cycle;

pub use samples::CellSamples;
