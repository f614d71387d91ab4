//! Opens the listener of a job from a file's first samples.

ghost use Rattle.cdma_replay.specs.Common.{Sample as TheSample, IsLawfulHeader, IsFingers};
ghost use Rattle.cdma_replay.specs.Common.{IsLawfulJob};
ghost use Rattle.std.specs.Prelude.{◌≡◌, ◌≤◌, List, [], IfOk, length};
ghost use Rattle.tuned_listener.specs.TunedListening.{ListensTuned, tuned_room};
ghost use Rattle.event_tap.specs.TunedTexts.{IsLawfulTuned};
ghost use Rattle.run_replies.specs.Handsets.{IsBest};
ghost use Rattle.run_replies.specs.Hearing.{AreNearTo, AreReady, ByFrames, ByTaps};
ghost use Rattle.run_replies.specs.Hearing.{IsLawfulHandset, listening, settings_for};
ghost use Rattle.run_replies.specs.Hearing.{tuning_for, waiting};
ghost use Rattle.cdma_replay.specs.Listeners.{IsListenerFor};

use crate::listener::Listener;
use cdma_io::Header;
use chip_core::{OutOfMemory, Sample, Traffic};
use command_line::Job;
use event_tap::TunedText;
use mobile_core::{CodeChannel, Settings};
use pilot_search::{Best, Gate, Near, near, search};
use run_replies::{boxed_handset, find_pilot, open_handset, rank_pilots, settings_for};
use short_code::Codes;
use std::alloc::Global;
use std::thread::Threads;
use tuned_listener::TunedListener;

/// Opens a boxed listener for the frames of one channel, with these settings and on paths near the
/// pilot's phase.
// Not inlined: its stack frame holds several copies of the listener, and ends before it listens.
#[inline(never)]
fn tuned_listener(
    alloc: Global,
    settings: Settings,
    best: Best,
    near: Near,
    channel: CodeChannel,
    text: TunedText,
    codes: Codes,
) -> Result<Box<TunedListener>, OutOfMemory>
    requires settings { IsLawfulHandset settings.fingers settings.paging settings.traffic }
    requires count { settings.count ≤ 67108864 }
    requires near { AreReady near }
    requires each { near.count ≡ settings.fingers }
    requires lawful { IsLawfulTuned channel text }
    ensures listens { (first : List TheSample) → IsBest first best →
        AreNearTo first best.phase settings.fingers near →
        IfOk result (λ tuned.
        ListensTuned (tuning_for settings first) channel text tuned.value []) }
    ensures room { IfOk result (λ tuned. tuned_room tuned.value ≡ settings.count) }
{
    let Best { phase, .. } = best;
    let mobile = open_handset(alloc, settings, best, near, codes)?;
    let tuned = TunedListener::open(alloc, mobile, channel, text, phase, near)?;
    Ok(Box::new(alloc, tuned)?)
}

/// Opens a handset for a file with this header, on the paths near the pilot in its first samples.
fn handset_near(
    alloc: Global,
    fingers: u8,
    paging: u8,
    traffic: Option<Traffic>,
    header: Header,
    codes: Codes,
    first: &[Sample],
    best: &Best,
) -> Result<Listener, OutOfMemory>
    requires lawful { IsLawfulHandset fingers paging traffic }
    requires header { IsLawfulHeader header }
    requires few { length first.now ≤ 32768 }
    requires best { IsBest first.now best.now }
    ensures { IfOk result (IsListenerFor
        (ByTaps (tuning_for (settings_for header fingers paging traffic) first.now)) header.count) }
{
    let paths = near(first, &codes, *best, fingers);
    let settings = settings_for(&header, fingers, paging, traffic);
    let mobile = boxed_handset(alloc, settings, *best, paths, codes)?;
    Ok(Listener::Handset(mobile))
}

/// Opens a listener for the frames of one channel of a file with this header, on the paths near the
/// pilot in its first samples.
fn tuned_near(
    alloc: Global,
    fingers: u8,
    channel: CodeChannel,
    text: TunedText,
    header: Header,
    codes: Codes,
    first: &[Sample],
    best: &Best,
) -> Result<Listener, OutOfMemory>
    requires fingers { IsFingers fingers }
    requires lawful { IsLawfulTuned channel text }
    requires header { IsLawfulHeader header }
    requires few { length first.now ≤ 32768 }
    requires best { IsBest first.now best.now }
    ensures { IfOk result (IsListenerFor
        (λ taps. ByFrames (tuning_for (waiting header fingers) first.now) channel text)
        header.count) }
{
    let paths = near(first, &codes, *best, fingers);
    let settings = settings_for(&header, fingers, 1, None);
    let tuned = tuned_listener(alloc, settings, *best, paths, channel, text, codes)?;
    Ok(Listener::Tuned(tuned))
}

/// Opens the listener of a job, given a file's header and first samples.
///
/// For `find`, only the pilot is searched; likewise for `make` and `trial`, which receive no file.
pub fn listener_for<R: Threads + Sync, G: Gate + Sync>(
    rt: &R,
    alloc: Global,
    job: Job,
    header: Header,
    codes: Codes,
    first: &[Sample],
    gate: &G,
) -> Result<Listener, OutOfMemory>
    requires job { IsLawfulJob job }
    requires header { IsLawfulHeader header }
    requires few { length first.now ≤ 32768 }
    ensures { IfOk result
        (IsListenerFor (λ taps. listening taps job header first.now) header.count) }
{
    let workers = job.search().workers;
    match job {
        Job::Follow {
            fingers,
            paging,
            traffic,
            ..
        } => {
            let best = search(rt, alloc, first, &codes, workers, gate)?;
            handset_near(alloc, fingers, paging, traffic, header, codes, first, &best)
        }
        Job::Rate2 {
            fingers,
            offset,
            esn,
            row,
            ..
        } => {
            let best = search(rt, alloc, first, &codes, workers, gate)?;
            let channel = CodeChannel::Traffic(Traffic { esn, row, offset });
            let text = TunedText::RateSetTwo;
            tuned_near(alloc, fingers, channel, text, header, codes, first, &best)
        }
        Job::List {
            fingers,
            offset,
            esn,
            row,
            k,
            ..
        } => {
            let best = search(rt, alloc, first, &codes, workers, gate)?;
            let channel = CodeChannel::Traffic(Traffic { esn, row, offset });
            let text = TunedText::Listed { k };
            tuned_near(alloc, fingers, channel, text, header, codes, first, &best)
        }
        Job::Idle {
            fingers,
            paging,
            key,
            cycle,
            ..
        } => {
            let best = search(rt, alloc, first, &codes, workers, gate)?;
            let channel = CodeChannel::Paging(paging);
            let text = TunedText::Slots { key, cycle };
            tuned_near(alloc, fingers, channel, text, header, codes, first, &best)
        }
        Job::Survey {
            base,
            width,
            top,
            ..
        } => {
            let ranks = rank_pilots(rt, alloc, base, width, top, codes, first, workers, gate)?;
            Ok(Listener::Unheard(ranks))
        }
        _ => {
            let pilot = find_pilot(rt, alloc, codes, first, workers, gate)?;
            Ok(Listener::Unheard(pilot))
        }
    }
}
