//! Lines of text that report what a handset received.
//!
//! Each event has one line, and each line ends with LF. [`line_into`] makes an event's line in a
//! [`Text`], without allocating, and [`write_event`] writes it to a sink. The caller of a run
//! passes boxed [`Tap`]s: each reports the events of its form's kinds up to its limit, and [`Taps`]
//! writes their text for an event to a sink. A frame of rate set 2, which is not an event of a
//! handset, also has a line ([`write_frame2`]), and so has a slot of a sleeping handset
//! ([`write_slot`]). A [`TunedText`] selects which of these are written for the frames of one
//! channel.
#![tactic(auto)]

mod frame;
mod items;
mod kinds;
pub mod laws;
mod line;
mod paging;
mod parts;
mod said;
mod sets;
mod sync;
mod tap;
mod taps;
mod traffic;
mod tuned_text;
mod writing;

pub use kinds::{FormTap, FrameTap, MessageTap, PilotTap, RawTap};
pub use line::line_into;
pub use line_text::Text;
pub use tap::{Heard, Tap};
pub use taps::{KeepsTaps, Taps};
pub use tuned_text::TunedText;
pub use writing::{write_event, write_frame2, write_slot};
