//! The lines that boxed taps write for pilots.

ghost use Rattle.std.specs.Prelude.{◌-◌};

use cdma_io::{Failed, MemorySink};
use chip_core::Phase;
use event_tap::{Heard, PilotTap, Tap, Taps, Text, line_into};
use heard_events::Event;
use std::test::Fail;

/// A tap of pilots that counts the events that it writes.
#[derive(Drop)]
struct CountingTap {
    heard: u32,
    limit: u32,
}

impl Tap for CountingTap {
    ghost shape = { λ _. 0 };

    ghost left = { λ t. t.limit - t.heard };

    fn form(&self) -> u8 {
        0
    }

    fn limit(&mut self, events: u32) {
        self.heard = 0;
        self.limit = events;
    }

    #[tactic(auto, unfolding(event_tap::specs::Taps::form_line))]
    fn hear(&mut self, event: &Event, out: &mut Text) -> Heard {
        match event {
            Event::Pilot { .. } | Event::Sets { .. } => {
                line_into(event, out);
                self.heard += 1;
            }
            _ => out.clear(),
        }
        if self.heard < self.limit {
            Heard::Keep
        } else {
            Heard::Done
        }
    }
}

/// Returns the event of a pilot.
fn pilot(phase: Phase) -> Event {
    Event::Pilot { phase, energy: 9 }
}

#[test]
fn a_tap_may_count_its_limit_itself(rt: HostRuntime) -> Result<(), Fail> {
    let alloc = rt.alloc();
    let mut taps: Vec<Box<dyn Tap>> = Vec::new(alloc);
    let counting = CountingTap { heard: 3, limit: 0 };
    taps.push(Box::new(alloc, counting)?)?;
    taps.push(Box::new(alloc, PilotTap::new())?)?;
    let mut taps = Taps::new(taps, [1; 4]);
    let mut sink = MemorySink::new(alloc, 100, 7, Vec::new(alloc))?;
    let event = pilot(Phase::new(64).ok_or("no phase")?);
    taps.hear(&event, &mut sink)?;
    taps.hear(&event, &mut sink)?;
    let twice = b"pilot phase=64 energy=9\npilot phase=64 energy=9\n";
    assert_eq!(rt; sink.bytes(), twice.as_slice());
    Ok(())
}

#[test]
fn a_full_sink_takes_the_first_bytes(rt: HostRuntime) -> Result<(), Fail> {
    let alloc = rt.alloc();
    let mut taps: Vec<Box<dyn Tap>> = Vec::new(alloc);
    taps.push(Box::new(alloc, PilotTap::new())?)?;
    let mut taps = Taps::new(taps, [1; 4]);
    let mut sink = MemorySink::new(alloc, 10, 7, Vec::new(alloc))?;
    let event = pilot(Phase::new(64).ok_or("no phase")?);
    assert_eq!(rt; taps.hear(&event, &mut sink), Err(Failed));
    assert_eq!(rt; sink.bytes(), b"pilot phas".as_slice());
    Ok(())
}
