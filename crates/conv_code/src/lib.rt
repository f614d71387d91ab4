//! The convolutional code of rate 1/2 and constraint length 9 (TIA/EIA-95-B, 7.1.3.1.3.1): the
//! encoder, for one bit at a time or a whole list, and its inverse for symbols without errors.
#![tactic(auto)]

mod encoding;
mod inversion;
pub mod laws;

pub use encoding::{Register, encode_into};
pub use inversion::invert;
