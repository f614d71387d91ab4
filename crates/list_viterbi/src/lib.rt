//! The first codewords of the convolutional code of rate 1/2 and constraint length 9 for a list of
//! soft values.
//!
//! TIA/EIA-95-B, 7.1.3.1.3.1, specifies the encoder and leaves decoding open. A frame whose best
//! codeword has wrong quality bits is often saved by the second or third codeword. The codewords,
//! their scores and their order are those of `viterbi`. Here the decoder keeps up to 16 codewords
//! for each state instead of one, as their scores and the states that they come from, and returns
//! the list of the first `k`.
//!
//! States are numbered as in `viterbi`, so that of two codewords of equal length the one with the
//! lesser state comes first in the order of codewords.
#![tactic(auto)]

mod codewords;
mod column;
mod decoder;
mod finds;
mod gains;
pub mod laws;
mod picking;
mod ranked;
mod scores;
mod tracing;

pub use codewords::{Codewords, Entry, Words};
pub use decoder::ListDecoder;
pub use ranked::{Ranked, Scored, merged};
