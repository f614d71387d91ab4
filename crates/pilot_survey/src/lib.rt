//! The survey of pilots: the strength of each of the 512 pilots in the samples, and their ranking.
//!
//! A base station's pilot is the short code, delayed by 64 chips for each step of its offset
//! (TIA/EIA-95-B, 7.1.3.2.1). The phase of offset 0 thus determines each pilot's own phase; the
//! signal may be a few chips before or after it. The survey measures the energy at all of these
//! phases.
#![tactic(auto)]

pub mod laws;
mod measuring;
mod rank;
mod ranking;
mod surveying;

pub use rank::Rank;
pub use ranking::Survey;
pub use surveying::survey;
