//! The lines of frames of traffic channels.

ghost use Rattle.std.specs.Prelude.{◌≡◌, ◌≤◌, ◌+◌, [], ◌++◌, length};
ghost use Rattle.event_tap.specs.FrameLines.{frame_line, frame2_line, received_text};

use chip_core::{Bits, PowerBits};
use line_text::Text;
use rate_set_two::Decoded2;
use symbol_path::Rate;

/// Adds the line of a frame to the empty text, LF at its end.
///
/// `at` is the number of samples taken when the frame ended.
#[tactic(auto, unfolding(crate::specs::FrameLines::frame_line))]
pub(crate) fn append_frame(
    text: &mut Text,
    at: u64,
    rate: Rate,
    good: bool,
    bits: &Bits,
    power_bits: &PowerBits,
)
    requires { text.old ≡ [] }
    ensures value { text.new ≡ frame_line at rate good bits.now power_bits.now }
    ensures most { length text.new ≤ 1024 }
{
    text.append_named("frame at=", at);
    append_received(text, rate.bits_per_second(), good, bits, power_bits);
}

/// Adds the line of a frame of rate set 2 to the empty text, LF at its end.
///
/// `at` is the number of samples taken when the frame ends.
#[tactic(auto, unfolding(crate::specs::FrameLines::frame2_line))]
pub(crate) fn append_frame2(text: &mut Text, at: u64, frame: &Decoded2, power_bits: &PowerBits)
    requires { text.old ≡ [] }
    ensures value { text.new ≡ frame2_line at frame.now power_bits.now }
    ensures most { length text.new ≤ 1024 }
{
    text.append_named("frame2 at=", at);
    append_received(
        text,
        frame.rate.bits_per_second(),
        frame.good,
        &frame.bits,
        power_bits,
    );
}

/// Adds the received content of a frame, and ends the line.
///
/// `rate` is in bits per second.
fn append_received(text: &mut Text, rate: u16, good: bool, bits: &Bits, power_bits: &PowerBits)
    requires room { length text.old + 353 ≤ 1024 }
    ensures value { text.new ≡ text.old ++ received_text rate good bits.now power_bits.now }
    ensures len { length text.new ≤ length text.old + 353 }
{
    text.append_named(" rate=", rate);
    text.append_str(" good=");
    text.append_digit(good);
    text.append_str(" bits=");
    text.append_bits(bits);
    text.append_str(" commands=");
    text.append_digits(power_bits);
    text.append_str("\n");
}
