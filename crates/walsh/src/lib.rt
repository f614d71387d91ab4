//! The orthogonal Walsh rows that separate the channels of one base station.
//!
//! TIA/EIA-95-B, 7.1.3.1.8: each channel is spread by one of 64 Walsh rows of 64 chips. Chip k of
//! row n is the parity of the bits that are 1 in both n and k.
#![tactic(auto)]

pub mod laws;
mod rows;
mod transform;

pub use rows::chip;
pub use transform::transform64;
