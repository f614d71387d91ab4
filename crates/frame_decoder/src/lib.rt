//! From the soft values of frames to their bits.
//!
//! The encoders of the sync channel and of a paging channel continue from frame to frame, and their
//! frames have no tail (TIA/EIA-95-B, 7.7.1.2 and 7.1.3.1.3). So the neighboring frames also carry
//! information about the bits near a frame's edges. A frame is therefore decoded as part of a span:
//! one to three successive frames that are decoded as one codeword.
//!
//! A frame of a traffic channel ends with tail bits (7.1.3.5), so it is decoded by itself, and at
//! each of the four rates, since its rate is not transmitted. Its power control bits are read
//! separately.
#![tactic(auto)]

mod choice;
mod formats;
mod frame_softs;
pub mod laws;
mod power;
mod replaced;
mod span;
mod span_format;
mod traffic;

pub use choice::{frame_of, good_or, preferred};
pub use formats::{DecodedFrame, ScoredCodeword, frame_in, is_right};
pub use frame_softs::FrameSofts;
pub use power::{GroupSums, PowerSofts, commands};
pub use replaced::without_power_bits;
pub use span::{paging_span, span_bits, sync_span};
pub use span_format::FrameKind;
pub use symbol_path::{FrameFormat, format_of};
pub use traffic::{Decoded, traffic_frame};
