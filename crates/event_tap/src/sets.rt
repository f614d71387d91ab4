//! The line of the pilot sets at a moment.

ghost use Rattle.std.specs.Prelude.{◌≡◌, ◌≤◌, [], length};
ghost use Rattle.event_tap.specs.SetsLines.{sets_line};

use crate::items::append_items;
use line_text::Text;
use pilot_sets::{ActiveList, PilotList};

/// Adds the line of the pilot sets to the empty text, LF at its end.
///
/// `at` is the number of samples taken at the moment, and `time` its time in units of 80 ms.
#[tactic(auto, unfolding(crate::specs::SetsLines::sets_line))]
pub(crate) fn append_sets(
    text: &mut Text,
    at: u64,
    time: u64,
    active: &ActiveList,
    candidate: &PilotList,
    report: bool,
)
    requires { text.old ≡ [] }
    ensures value { text.new ≡ sets_line at time active.now candidate.now report }
    ensures most { length text.new ≤ 1024 }
{
    let _most = (active.len(), candidate.len());
    text.append_named("sets at=", at);
    text.append_named(" time=", time);
    text.append_str(" active=");
    append_items(text, active);
    text.append_str(" candidate=");
    append_items(text, candidate);
    text.append_str(" report=");
    text.append_digit(report);
    text.append_str("\n");
}
