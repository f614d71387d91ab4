//! Receives one channel of the reference base station and writes its text.
//!
//! A handset receives the sync channel until one of its messages sets the mark. After that, only
//! the frames of one channel are received, decoded and written, a line or a few lines at a time
//! (TIA/EIA-95-B, 7.7.1.3 for the mark, 7.1.3.4 and 7.1.3.5 for the channels). A [`TunedText`]
//! selects the text. The output depends only on the samples, not on how they are cut into pieces.
#![tactic(auto)]

mod channel_receiver;
mod frame_writer;
pub mod laws;
mod marking;
mod slot_writer;
mod tuned;
mod tuner;

pub use event_tap::TunedText;
pub use heard_events::{PowerControl, SoftFrame};
pub use tuned::TunedListener;
pub use tuner::{Tuner, TunerStep};
