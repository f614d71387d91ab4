//! The lists of pilots that the sets return.

ghost use Rattle.std.specs.Prelude.{◌≡◌, ◌<◌, ◌≤◌, length, map, slice_get, Some};
ghost use Rattle.pilot_sets.specs.Standing.{shown_active};

use crate::each_pilot::EachPilot;
use crate::few::{Few, Filler};
use crate::standing::ActivePilot;
use std::marker::Model;

/// A pilot of the active set.
#[derive(Clone, Copy, PartialEq, Eq, Debug)]
pub struct Active {
    /// The pilot's offset, in steps of 64 chips (PILOT_PN).
    pub pilot: u16,
    /// The Walsh row of the traffic channel.
    pub row: u8,
    /// The power control subchannel.
    pub subchannel: u8,
}

impl Filler for Active {
    ghost filler = { record { pilot = 0; row = 0; subchannel = 0 } };

    fn filler() -> Self {
        Active {
            pilot: 0,
            row: 0,
            subchannel: 0,
        }
    }
}

/// The active set, 1 to 6 pilots. Contracts see the list.
#[derive(Clone, Copy, PartialEq, Eq, Debug)]
pub struct ActiveList {
    list: Few<Active, 6>,
}

impl Model for ActiveList {
    ghost use Rattle.std.specs.Prelude.{◌≤◌, List, length};
    ghost use Rattle.pilot_sets.specs.declared.lists.Active.{Active};

    ghost Value = { List Active };

    ghost view = { λ l. l.list };

    ghost invariant = { λ l. 1 ≤ length l.list };

    ghost inverse = { λ l. record { list = l } };
}

impl ActiveList {
    /// Returns the number of pilots in the set, 1 to 6.
    #[allow(clippy::len_without_is_empty)]
    pub fn len(&self) -> u8
        ensures value { result ≡ length self.now }
        ensures least { 1 ≤ result }
        ensures most { result ≤ 6 }
    {
        self.list.all().len() as u8
    }

    /// Pilot `i`, counted from 0.
    pub fn get(&self, i: u8) -> Active
        requires { i < length self.now }
        ensures { slice_get self.now i ≡ Some result }
    {
        self.list.all()[usize::from(i)]
    }
}

/// A list of the offsets (PILOT_PN) of at most 36 pilots.
pub type PilotList = EachPilot<u16>;

/// The active set as callers see it, without timers.
pub(crate) fn active_list(actives: &[ActivePilot]) -> ActiveList
    requires least { 1 ≤ length actives.now }
    requires most { length actives.now ≤ 6 }
    ensures { result ≡ map shown_active actives.now }
{
    let mut list = Few::empty();
    for a in actives {
        list.push(Active {
            pilot: a.pilot,
            row: a.row,
            subchannel: a.subchannel,
        });
    }
    ActiveList { list }
}
