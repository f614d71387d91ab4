//! Traffic frames of rate set 1 by lists of codewords.
//!
//! A frame whose best codeword has wrong quality bits is often saved by the second or third
//! codeword. So at 9,600 and 4,800 bits a second, whose frames have a quality indicator
//! (TIA/EIA-95-B, 7.1.3.5), the first n codewords are tried instead of only the best one.
//! Everything else is as in `frame_decoder`, and with n = 1 nothing changes.
#![tactic(auto)]

mod frame;
pub mod laws;

pub use frame::listed_frame;
