//! The lines of messages of the paging channel, and of the slots of a sleeping handset.

ghost use Rattle.std.specs.Prelude.{◌≡◌, ◌≤◌, [], length};
ghost use Rattle.event_tap.specs.PagingLines.{paging_line, slot_line};

use crate::said::append_message;
use line_text::Text;
use paging_message::PagingMessage;

/// Adds the line of a message to the empty text, LF at its end. No line is longer than 1,024 bytes.
///
/// `at` is the number of samples taken when the message was decoded.
#[tactic(auto, unfolding(crate::specs::PagingLines::paging_line))]
pub(crate) fn append_paging(text: &mut Text, at: u64, message: &PagingMessage)
    requires { text.old ≡ [] }
    ensures value { text.new ≡ paging_line at message.now }
    ensures most { length text.new ≤ 1024 }
{
    text.append_named("paging at=", at);
    append_message(text, message.kind(), &message.layout(), &message.contents());
}

/// Adds the first line of a slot to the empty text, LF at its end.
///
/// `at` is the number of samples taken when the slot ends, `time` its system time in units of 80
/// ms, and `messages` the number of messages in it.
#[tactic(auto, unfolding(crate::specs::PagingLines::slot_line))]
pub(crate) fn append_slot(text: &mut Text, at: u64, time: u64, messages: u16)
    requires { text.old ≡ [] }
    ensures value { text.new ≡ slot_line at time messages }
    ensures most { length text.new ≤ 1024 }
{
    text.append_named("slot at=", at);
    text.append_named(" time=", time);
    text.append_named(" messages=", messages);
    text.append_str("\n");
}
