//! The active pilots with their parameters for a traffic channel.

ghost use Rattle.std.specs.Prelude.{◌≡◌, ◌<◌, ◌≤◌, ◌∷◌, ◌++◌, [], length};
ghost use Rattle.heard_events.specs.Legs.{has_subchannel, on_subchannel};

use crate::leg::Leg;
use chip_core::Phase;
use rake_finger::Finger;
use std::marker::Model;

/// At most six active pilots. Contracts see the list.
#[derive(Drop)]
pub struct Legs {
    items: [Leg; 6],
    count: u8,
}

impl Model for Legs {
    ghost use Rattle.std.specs.Prelude.{◌≡◌, ◌≤◌, List, take, length};
    ghost use Rattle.heard_events.specs.declared.leg.Leg.{Leg};

    ghost Value = { List Leg };

    ghost view = { λ l. take l.count l.items };

    ghost invariant = { λ l. (l.count ≤ 6) × (length l.items ≡ 6) };
}

impl Legs {
    /// Returns the empty list.
    pub(crate) fn empty() -> Legs
        ensures { result ≡ [] }
    {
        let none = Leg {
            reference: false,
            finger: Finger {
                phase: Phase::new(0).unwrap(),
                delta: 0,
                row: 0,
            },
            subchannel: 0,
        };
        Legs {
            items: [none; 6],
            count: 0,
        }
    }

    /// Returns the pilots.
    pub(crate) fn all(&self) -> &[Leg]
        ensures value { result.now ≡ self.now }
        ensures most { length result.now ≤ 6 }
    {
        &self.items[..usize::from(self.count)]
    }

    /// Adds a pilot at the end.
    pub(crate) fn push(&mut self, leg: Leg)
        requires { length self.old < 6 }
        ensures { self.new ≡ self.old ++ leg ∷ [] }
    {
        self.items[usize::from(self.count)] = leg;
        self.count += 1;
    }

    /// Whether one of the pilots is on a power control subchannel.
    pub(crate) fn has_subchannel(&self, subchannel: u8) -> bool
        ensures { result ≡ has_subchannel self.now subchannel }
    {
        self.all().iter().any(|leg| leg.subchannel == subchannel)
    }

    /// Returns the pilots of a power control subchannel.
    pub(crate) fn on_subchannel(&self, subchannel: u8) -> Legs
        ensures { result ≡ on_subchannel subchannel self.now }
    {
        let mut legs = Legs::empty();
        for leg in self.all() {
            if leg.subchannel == subchannel {
                legs.push(*leg);
            }
        }
        legs
    }
}
