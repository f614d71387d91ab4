//! The findings in a file's first samples, for commands without a listener.

ghost use Rattle.command_line.specs.Args.{IsBase, IsTop, IsWidth, IsWorkers};
ghost use Rattle.event_tap.specs.EventLines.{event_line};
ghost use Rattle.run_replies.specs.Findings.{AreWritable, findings_text};
ghost use Rattle.run_replies.specs.Hearing.{best_pilot};
ghost use Rattle.run_replies.specs.Ranks.{survey_text};
ghost use Rattle.std.specs.Prelude.{◌≡◌, ◌≤◌, IfOk, length};

use crate::ranks::write_ranks;
use cdma_io::{Failed, Sink};
use chip_core::{OutOfMemory, Phase, Sample};
use event_tap::write_event;
use heard_events::hearing::pilot_event;
use pilot_search::{Best, Gate, search};
use pilot_survey::{Survey, survey};
use short_code::Codes;
use std::alloc::Global;
use std::thread::Threads;

/// The findings in a file's first samples, for commands without a listener.
#[derive(Drop)]
pub enum Findings {
    /// The strongest pilot.
    Pilot(Best),
    /// The strengths of the pilots.
    Ranks {
        /// The ranks of all 512 pilots, strongest first.
        ranks: Survey,
        /// The number of ranks that are written, at most 512.
        top: u16,
    },
}

impl Findings {
    ghost use Rattle.std.specs.Prelude.{OnErr, OnOk};
    ghost use Rattle.std.specs.Io.KnownBytes.{Appends};
    ghost use Rattle.cdma_io.specs.Outside.{AppendsPrefix, HasCause};
    ghost use Rattle.run_replies.specs.Findings.{AreWritable, findings_text};

    /// Writes the pilot's line, or the lines of the first ranks.
    ///
    /// Returns [`Failed`] only if the sink's count of faults rose; the sink then took a prefix of
    /// the text.
    pub fn write<K: Sink>(&self, sink: &mut K) -> Result<(), Failed>
        requires { AreWritable self.now }
        ensures ok { OnOk result (Appends (K.written sink.old) (K.written sink.new)
            (findings_text self.now)) }
        ensures err { OnErr result (AppendsPrefix (K.written sink.old) (K.written sink.new)
            (findings_text self.now)) }
        ensures cause { HasCause (K.faults sink.old) (K.faults sink.new) result }
    {
        match self {
            Findings::Pilot(best) => write_event(&pilot_event(best), sink),
            Findings::Ranks { ranks, top } => write_ranks(ranks, *top, sink),
        }
    }
}

/// Searches a file's first samples for the pilot (TIA/EIA-95-B, 7.1.3.1.9) with `workers` workers.
///
/// Fails only if memory runs out.
pub fn find_pilot<R: Threads + Sync, G: Gate + Sync>(
    rt: &R,
    alloc: Global,
    codes: Codes,
    first: &[Sample],
    workers: u8,
    gate: &G,
) -> Result<Findings, OutOfMemory>
    requires few { length first.now ≤ 32768 }
    requires workers { IsWorkers workers }
    ensures text { IfOk result (λ findings.
        event_line (best_pilot first.now) ≡ findings_text findings) }
    ensures writable { IfOk result AreWritable }
{
    let best = search(rt, alloc, first, &codes, workers, gate)?;
    Ok(Findings::Pilot(best))
}

/// Ranks the pilots by their strength in a file's first samples (TIA/EIA-95-B, 7.1.3.2.1). Each is
/// measured within `width` chips on either side of its phase; pilot 0 has the phase `base`. The
/// lines of the first `top` ranks are to be written.
///
/// Fails only if memory runs out.
#[tactic(auto, unfolding(crate::specs::Ranks::survey_text))]
pub fn rank_pilots<R: Threads + Sync, G: Gate + Sync>(
    rt: &R,
    alloc: Global,
    base: u16,
    width: u8,
    top: u16,
    codes: Codes,
    first: &[Sample],
    workers: u8,
    gate: &G,
) -> Result<Findings, OutOfMemory>
    requires lawful { IsBase base × IsWidth width × IsTop top }
    requires few { length first.now ≤ 32768 }
    requires workers { IsWorkers workers }
    ensures text { IfOk result (λ findings.
        survey_text base width top first.now ≡ findings_text findings) }
    ensures writable { IfOk result AreWritable }
{
    let base = Phase::new(base).unwrap();
    let ranks = survey(rt, alloc, first, &codes, base, width, workers, gate)?;
    Ok(Findings::Ranks { ranks, top })
}
