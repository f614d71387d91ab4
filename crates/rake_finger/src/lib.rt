//! The fingers of a rake receiver: soft values of a channel's symbols, and strengths of pilots,
//! computed from the last samples.
//!
//! A handset receives a base station on several paths, and on paths from several base stations. A
//! finger despreads one path (TIA/EIA-95-B, 7.1.3.1.9): it multiplies the samples by the conjugate
//! of the pilot's code. The pilot's sum over a window of chips then gives the path's strength and
//! angle. The sum over a symbol's chips, each with the sign of its chip of a Walsh row (7.1.3.1.8),
//! is turned and weighted by the pilot's. The soft value of a symbol is the real part, summed over
//! all fingers.
//!
//! A pilot's strength is the largest energy of the last samples near the phase where it should be.
#![tactic(auto)]

mod combining;
mod finger;
mod form;
mod lanes;
pub mod laws;
mod moments;
mod ring;
mod rows;
mod strengths;
mod sums;
mod values;
mod windows;

pub use combining::combine_into;
pub use finger::{Finger, Fingers, finger_at};
pub use form::Form;
pub use moments::power;
pub use ring::SampleRing;
pub use strengths::strength;
pub use values::soft;
