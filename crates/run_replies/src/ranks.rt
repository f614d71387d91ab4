//! Writes the lines of a survey, one for each rank.

ghost use Rattle.cdma_io.specs.Outside.{AppendsPrefix, HasCause};
ghost use Rattle.run_replies.specs.Ranks.{rank_line, ranks_text};
ghost use Rattle.std.specs.Prelude.{◌≡◌, ◌≤◌, OnErr, OnOk, take};
ghost use Rattle.std.specs.Io.KnownBytes.{Appends};

use cdma_io::{Failed, Sink, write_all};
use event_tap::Text;
use pilot_survey::{Rank, Survey};

/// Returns the line of a rank.
#[tactic(auto, unfolding(crate::specs::Ranks::rank_line))]
fn line_of(rank: Rank) -> Text
    ensures { result ≡ rank_line rank }
{
    let mut line = Text::empty();
    line.append_named("survey pn=", rank.pilot);
    line.append_named(" delta=", rank.delta);
    line.append_named(" energy=", rank.energy);
    line.append_str("\n");
    line
}

/// Writes the line of a rank.
fn write_rank<K: Sink>(rank: Rank, sink: &mut K) -> Result<(), Failed>
    ensures ok { OnOk result
        (Appends (K.written sink.old) (K.written sink.new) (rank_line rank)) }
    ensures err { OnErr result
        (AppendsPrefix (K.written sink.old) (K.written sink.new) (rank_line rank)) }
    ensures cause { HasCause (K.faults sink.old) (K.faults sink.new) result }
{
    let line = line_of(rank);
    write_all(sink, line.bytes())
}

/// Writes the lines of the first `top` ranks.
///
/// Returns [`Failed`] only if the sink's count of faults rose; the sink then took a prefix of the
/// lines.
pub fn write_ranks<K: Sink>(ranks: &Survey, top: u16, sink: &mut K) -> Result<(), Failed>
    requires { top ≤ 512 }
    ensures ok { OnOk result (Appends (K.written sink.old) (K.written sink.new)
        (ranks_text (take top ranks.now))) }
    ensures err { OnErr result (AppendsPrefix (K.written sink.old) (K.written sink.new)
        (ranks_text (take top ranks.now))) }
    ensures cause { HasCause (K.faults sink.old) (K.faults sink.new) result }
{
    for place in 0..top {
        write_rank(ranks.get(place), sink)?;
    }
    Ok(())
}
