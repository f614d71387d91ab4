//! The lines of messages of the traffic channel.

ghost use Rattle.event_tap.specs.Common.{FieldsFit, head_fields};
ghost use Rattle.std.specs.Prelude.{◌≡◌, ◌≤◌, ◌+◌, [], ◌++◌, length};
ghost use Rattle.event_tap.specs.TrafficLines.{body_text, handoff_text, search_text, start_text};
ghost use Rattle.event_tap.specs.TrafficLines.{traffic_line, HasFewRecords};
ghost use Rattle.traffic_message.specs.Handoff.{SearchFits};

use crate::items::{Listed, append_items};
use crate::parts::{append_few_bits, append_few_rest, append_values};
use crate::said::append_message;
use line_text::Text;
use message_layout::FieldRow;
use traffic_message::{
    HEAD_FIELDS, HandoffDirection, Head, SEARCH_FIELDS, Search, TIME_FIELDS, TrafficBody,
    TrafficMessage,
};

/// The fields of a record of a handoff direction, in the order of its line.
const RECORD_FIELDS: [FieldRow; 3] = [("pn", 9), ("row", 8), ("comb", 1)];

/// Adds the line of a message to the empty text, LF at its end. No line is longer than 1,024 bytes.
///
/// `at` is the number of samples taken when the message was decoded.
#[tactic(auto, unfolding(crate::specs::TrafficLines::traffic_line))]
pub(crate) fn append_traffic(text: &mut Text, at: u64, message: &TrafficMessage)
    requires { text.old ≡ [] }
    ensures value { text.new ≡ traffic_line at message.now }
    ensures most { length text.new ≤ 1024 }
{
    append_start(text, at, &message.head());
    append_body(text, &message.body());
}

/// Adds the content of a message after its head, and ends the line.
fn append_body(text: &mut Text, body: &TrafficBody)
    requires start { length text.old ≤ 95 }
    requires records { HasFewRecords body.now }
    ensures value { text.new ≡ text.old ++ body_text body.now }
    ensures most { length text.new ≤ 1024 }
{
    match body {
        TrafficBody::Handoff(message) => append_direction(text, message),
        _ => append_message(text, body.kind(), &body.layout(), &body.contents()),
    }
}

/// Adds the head of a message to the empty text.
#[tactic(auto, unfolding(crate::specs::TrafficLines::start_text, crate::specs::Parts::are_short))]
fn append_start(text: &mut Text, at: u64, head: &Head)
    requires empty { text.old ≡ [] }
    requires fit { FieldsFit (head_fields head.now) }
    ensures value { text.new ≡ start_text at head.now }
    ensures most { length text.new ≤ 95 }
{
    text.append_named("traffic at=", at);
    append_values(text, &HEAD_FIELDS, &head.values());
}

/// Adds the content of an Extended Handoff Direction Message.
#[tactic(auto, unfolding(crate::specs::TrafficLines::handoff_text, crate::specs::Parts::are_short))]
fn append_direction(text: &mut Text, message: &HandoffDirection)
    requires start { length text.old ≤ 95 }
    requires records { length message.now.pns ≤ 62 }
    ensures value { text.new ≡ text.old ++ handoff_text message.now }
    ensures most { length text.new ≤ 1024 }
{
    let fields = message.fields();
    text.append_str(" handoff");
    append_values(text, &TIME_FIELDS, &message.times());
    append_search(text, &fields.search);
    text.append_str(" extra=");
    append_few_bits(text, &fields.extra);
    text.append_str(" records=");
    let columns = [fields.pns, fields.rows, fields.combs];
    append_items(
        text,
        &Listed {
            fields: &RECORD_FIELDS,
            columns: &columns,
        },
    );
    append_few_rest(text, &fields.rest);
}

/// Adds the search parameters, if there are any.
#[tactic(auto, unfolding(crate::specs::Parts::are_short))]
fn append_search(text: &mut Text, search: &Option<Search>)
    requires fit { SearchFits search.now }
    requires room { length text.old + 93 ≤ 1024 }
    ensures value { text.new ≡ text.old ++ search_text search.now }
    ensures len { length text.new ≤ length text.old + 80 }
{
    if let Some(search) = search {
        append_values(text, &SEARCH_FIELDS, &search.values());
    }
}
