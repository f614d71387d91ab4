//! From code symbols to sent symbols, and back: repetition, interleaving, scrambling and the power
//! control bits; and the frames of each rate up to their symbols.
//!
//! TIA/EIA-95-B, 7.1.3.1.4 to 7.1.3.1.7. A frame sends 128 symbols on the sync channel, and 384 on
//! a paging or traffic channel.
//!
//! The rates of rate set 2, their quality indicators and the dropped symbols are this project's
//! profile; the rest is that of rate set 1. A frame has 576 repeated symbols. The third and the
//! fifth of each six are dropped, and the other 384 are sent in the order of rate set 1.
#![tactic(auto)]

mod frames;
mod kinds;
pub mod laws;
mod order;
mod order_two;
mod placing;
mod power_bits;
mod rate_two;
mod scramble;

pub use frames::{encode_frame_into, encode2_into, gather_frame_into};
pub use kinds::Kind;
pub use order::address;
pub use order_two::{place2, repeated_symbol};
pub use placing::{gather_into, place_into};
pub use power_bits::with_power_bits;
pub use quality_bits::{FrameFormat, REPEATED_SYMBOLS, Rate, format_of};
pub use rate_two::{Rate2, format_of2};
pub use scramble::{PowerPlaces, ScramblingBits, power_places, power_start, scramble_bits};
