//! Decodes the frames of traffic channels of rate set 2: at 14,400, 7,200, 3,600 and 1,800 bits a
//! second. `symbol_path` defines how they are sent.
//!
//! The rates, their quality indicators and the dropped symbols are this project's profile. The rest
//! is that of rate set 1: the convolutional code (TIA/EIA-95-B, 7.1.3.1.3), the interleaver
//! (7.1.3.1.5) and the places of power control bits (7.1.3.1.7).
//!
//! A frame has 576 repeated symbols. The third and the fifth of each six are dropped, and the other
//! 384 are sent in the order of rate set 1.
#![tactic(auto)]

pub mod laws;
mod traffic;

pub use symbol_path::{Rate2, encode2_into, place2};
pub use traffic::{Decoded2, traffic2_frame};
