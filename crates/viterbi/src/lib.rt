//! The best codeword of the convolutional code of rate 1/2 and constraint length 9 for a list of
//! soft values.
//!
//! TIA/EIA-95-B, 7.1.3.1.3.1, specifies the encoder and leaves decoding open. Here a codeword's
//! score is the sum of the soft values times the signs of its code symbols, and the decoder finds
//! the codeword with the largest score by Viterbi's algorithm. A fixed order decides between
//! codewords of equal score, so there is exactly one result.
//!
//! The state of a codeword is its last eight bits. Here they are numbered from the oldest, bit 0,
//! to the newest, bit 7, so that of two codewords of equal length the one with the lesser state
//! comes first in the order of codewords. State `s` is reached from the states `2 * (s % 128)` and
//! `2 * (s % 128) + 1`, whose oldest bits are 0 and 1.
#![tactic(auto)]

mod codeword;
mod decisions;
mod decoder;
mod lanes;
pub mod laws;
mod metrics;
mod survivor;
pub mod symbol_gains;

pub use codeword::{Codeword, Ends, MOST_BITS, Word};
pub use decisions::bits_of;
pub use decoder::Decoder;
pub use metrics::end_states;
pub use survivor::Survivor;
