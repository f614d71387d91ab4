//! The content of the sets.

use crate::few::{Few, Filler};
use crate::thresholds::Thresholds;
use traffic_message::Search;

/// A pilot of the active set.
#[derive(Clone, Copy, Debug)]
pub(crate) struct ActivePilot {
    /// The pilot's offset, in steps of 64 chips (PILOT_PN).
    pub pilot: u16,
    /// The Walsh row of the traffic channel.
    pub row: u8,
    /// The power control subchannel.
    pub subchannel: u8,
    /// The time at which the timer started, if it runs, in moments.
    pub timer: Option<u64>,
}

impl Filler for ActivePilot {
    ghost use Rattle.std.specs.Prelude.{None};

    ghost filler = { record { pilot = 0; row = 0; subchannel = 0; timer = None } };

    fn filler() -> Self {
        ActivePilot {
            pilot: 0,
            row: 0,
            subchannel: 0,
            timer: None,
        }
    }
}

/// A pilot of the candidate set.
#[derive(Clone, Copy, Debug)]
pub(crate) struct CandidatePilot {
    /// The pilot's offset, in steps of 64 chips (PILOT_PN).
    pub pilot: u16,
    /// The time at which the timer started, if it runs, in moments.
    pub timer: Option<u64>,
}

impl Filler for CandidatePilot {
    ghost use Rattle.std.specs.Prelude.{None};

    ghost filler = { record { pilot = 0; timer = None } };

    fn filler() -> Self {
        CandidatePilot {
            pilot: 0,
            timer: None,
        }
    }
}

/// A pilot that a handoff direction names.
#[derive(Clone, Copy, Debug)]
pub(crate) struct NamedPilot {
    /// The pilot's offset, in steps of 64 chips (PILOT_PN).
    pub pilot: u16,
    /// The Walsh row of the traffic channel (CODE_CHAN).
    pub row: u8,
    /// Whether it has the power control subchannel of the pilot named before it (PWR_COMB_IND).
    pub combined: bool,
}

impl Filler for NamedPilot {
    ghost use Rattle.std.specs.Prelude.{false};

    ghost filler = { record { pilot = 0; row = 0; combined = false } };

    fn filler() -> Self {
        NamedPilot {
            pilot: 0,
            row: 0,
            combined: false,
        }
    }
}

impl Filler for u16 {
    ghost filler = { 0 };

    fn filler() -> Self {
        0
    }
}

/// A handoff direction that was accepted.
#[derive(Clone, Copy, Debug)]
pub(crate) struct Accepted {
    /// The time at which it takes effect, in moments.
    pub time: u64,
    /// The thresholds that it carries.
    pub search: Option<Search>,
    /// The pilots of the new active set.
    pub named: Few<NamedPilot, 6>,
}

/// The three sets, the thresholds, and the waiting direction.
#[derive(Clone, Copy, Debug)]
pub(crate) struct PilotSets {
    pub active: Few<ActivePilot, 6>,
    pub candidates: Few<CandidatePilot, 10>,
    pub neighbors: Few<u16, 20>,
    pub thresholds: Thresholds,
    pub waiting: Option<Accepted>,
}

/// The lists when a moment began.
#[derive(Clone, Copy, Debug)]
pub(crate) struct Began {
    pub active: Few<ActivePilot, 6>,
    pub candidates: Few<CandidatePilot, 10>,
    pub neighbors: Few<u16, 20>,
}
