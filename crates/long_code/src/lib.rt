//! The long code, which scrambles the paging and traffic channels and places the power control
//! bits.
//!
//! TIA/EIA-95-B, 7.1.3.1.10: a maximal-length code of 2^42 - 1 chips. A mask of 42 bits selects the
//! bits of the generator's state whose sum modulo 2 is the chip.
#![tactic(auto)]

pub mod laws;
mod masks;
mod state;
mod symbol_step;

pub use masks::{paging_mask, traffic_mask};
pub use state::State;
