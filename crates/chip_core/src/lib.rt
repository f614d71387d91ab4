//! The basic types of every layer of the forward link: samples, code phases, bits, and the numbers
//! of the air interface.
#![tactic(auto)]

pub mod air;
mod assignment;
mod bit_list;
mod check_form;
mod cursor;
mod decimal;
mod event_limits;
mod field;
pub mod laws;
mod memory;
mod numbers;
mod parities;
mod phase;
mod power_bits;
mod sample;
mod width;

pub use assignment::Traffic;
pub use bit_list::{Bits, Full};
pub use check_form::CheckForm;
pub use cursor::{BitReader, BitWriter, Short};
pub use decimal::digits_in;
pub use event_limits::EventLimits;
pub use field::Field;
pub use memory::OutOfMemory;
pub use numbers::Numbers;
pub use parities::parity_at;
pub use phase::Phase;
pub use power_bits::PowerBits;
pub use sample::{Pair, Sample};
pub use width::Width;
