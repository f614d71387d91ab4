//! The listener that takes the samples of a file.

use cdma_io::{Failed, Sink};
use chip_core::Sample;
use event_tap::KeepsTaps;
use mobile_core::Mobile;
use run_replies::{FileListener, Findings, tell_events, tell_pilot};
use tuned_listener::TunedListener;

/// The listener that takes the samples of a file, with the results of its first samples.
#[derive(Drop)]
pub enum Listener {
    /// No listener: only the findings in the first samples are written.
    Unheard(Findings),
    /// A handset whose events the taps receive.
    Handset(Box<Mobile>),
    /// A listener that writes text for the frames of one channel.
    Tuned(Box<TunedListener>),
}

impl FileListener for Listener {
    ghost use Rattle.cdma_replay.specs.Listeners.{HasRoom, IsFreshListener, IsTellable, Listens};
    ghost use Rattle.cdma_replay.specs.Listeners.{room_for_fewer};

    ghost can_begin = { IsTellable };

    ghost fresh = { IsFreshListener };

    ghost hearing = { Listens };

    ghost has_room = { HasRoom };

    ghost fewer = { room_for_fewer };

    fn begin<T: KeepsTaps, K: Sink>(&mut self, taps: &mut T, sink: &mut K) -> Result<(), Failed> {
        match self {
            Listener::Unheard(findings) => findings.write(sink),
            Listener::Handset(mobile) => tell_pilot(mobile, taps, sink),
            Listener::Tuned(_) => Ok(()),
        }
    }

    fn hear<T: KeepsTaps, K: Sink>(
        &mut self,
        samples: &[Sample],
        taps: &mut T,
        sink: &mut K,
    ) -> Result<(), Failed> {
        match self {
            Listener::Unheard(_) => Ok(()),
            Listener::Handset(mobile) => tell_events(mobile, samples, taps, sink),
            Listener::Tuned(tuned) => tuned.hear(samples, sink),
        }
    }

    fn is_told(&self) -> bool {
        match self {
            Listener::Unheard(_) => true,
            Listener::Handset(mobile) => mobile.synced(),
            Listener::Tuned(tuned) => tuned.is_told(),
        }
    }
}
