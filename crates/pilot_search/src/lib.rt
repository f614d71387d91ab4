//! The search for the pilot: the correlation of samples with the code at a phase, and the best
//! phase.
//!
//! A handset finds a cell by its pilot, which is the bare code (TIA/EIA-95-B, 7.1.3.1.9): it
//! multiplies the samples by the conjugate of the code at each phase, adds the products up, and
//! takes the phase with the largest energy.
#![tactic(auto)]

mod blocks;
mod correlation;
mod gate;
mod lanes;
pub mod laws;
mod nearby;
mod paths;
mod points;
mod rule;
mod searching;
mod shared;
mod steps;
mod sweeping;
mod tails;
mod trying;
mod view;

pub use correlation::energy_at;
pub use gate::{Gate, Open};
pub use lanes::{added, products, sum_of_lanes, total_of, with_products};
pub use nearby::near;
pub use paths::Near;
pub use searching::search;
pub use shared::{BestSeat, Shared};
pub use sweeping::{Best, sweep};
pub use tails::Tails;
pub use trying::try_phase;
