//! The times at which a handset wakes.

ghost use Rattle.std.specs.Prelude.{◌≡◌, ◌≤◌, IsTrue, SomeIff};
ghost use Rattle.slot_mode.specs.Slots.{slot_period, is_monitored};

use crate::hash::slot_of;
use std::marker::Model;

/// The number of slots of the shortest cycle, which lasts 1.28 seconds.
const SHORTEST_CYCLE: u64 = 16;

/// Returns the number of slots of the cycle with this index.
fn period(cycle: u8) -> u64
    requires { cycle ≤ 7 }
    ensures { result ≡ slot_period cycle }
{
    SHORTEST_CYCLE << cycle
}

/// Returns whether the handset with this key monitors the slot at `time`.
///
/// `time` is the system time in units of 80 ms, each of which is a slot, `key` the key of the
/// handset, and `cycle` the index of its cycle, 0 to 7. A cycle of index 0 has 16 slots, and each
/// further index doubles the number. TIA/EIA-95-B, 6.6.2.1.1.3: the handset monitors the slot if
/// the time and its slot number are equal modulo the cycle's length.
pub fn monitored(time: u64, key: u32, cycle: u8) -> bool
    requires { cycle ≤ 7 }
    ensures { result ≡ is_monitored time key cycle }
{
    let slots = period(cycle);
    time % slots == u64::from(slot_of(key)) % slots
}

/// A time at which a handset is awake: it monitors the slot of this time. Other times have no value
/// of this type.
///
/// Contracts see the time, the handset's key and the index of its cycle.
#[derive(Clone, Copy)]
pub struct Wake {
    time: u64,
    key: u32,
    cycle: u8,
}

impl Model for Wake {
    ghost use Rattle.std.specs.Prelude.{IsTrue};
    ghost use Rattle.slot_mode.specs.Slots.{Waking, is_monitored};

    ghost Value = { Waking };

    ghost view = { λ w. record { time = w.time; key = w.key; cycle = w.cycle } };

    ghost invariant = { λ w. IsTrue (is_monitored w.time w.key w.cycle) };

    ghost inverse = { λ v. record { time = v.time; key = v.key; cycle = v.cycle } };
}

impl Wake {
    /// Returns the handset with key `key`, awake at `time`; `None` exactly if it does not monitor
    /// the slot of this time in its cycle, whose index, 0 to 7, is `cycle`.
    pub fn new(time: u64, key: u32, cycle: u8) -> Option<Wake>
        requires { cycle ≤ 7 }
        ensures { SomeIff result (IsTrue (is_monitored time key cycle))
            (record { time = time; key = key; cycle = cycle }) }
    {
        if monitored(time, key, cycle) {
            Some(Wake { time, key, cycle })
        } else {
            None
        }
    }

    /// Returns the system time, in units of 80 ms.
    pub fn time(&self) -> u64
        ensures value { result ≡ self.now.time }
        ensures monitored { IsTrue (is_monitored result self.now.key self.now.cycle) }
    {
        self.time
    }
}
