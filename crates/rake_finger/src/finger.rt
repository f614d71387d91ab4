//! Fingers, and lists of them.

ghost use Rattle.std.specs.Prelude.{◌≡◌, ◌<◌, ◌≤◌, List, [], ◌∷◌, ◌++◌, length, slice_get, Some};
ghost use Rattle.std.specs.Prelude.{IsOk, OnOk, OnErr, ◌↔◌, true, pos, ◌+ℤ◌};
ghost use Rattle.rake_finger.specs.Near.{is_near};
ghost use Rattle.rake_finger.specs.Paths.{finger_of, modulo_code};

use chip_core::{Full, Phase};
use std::marker::Model;

/// One path of one base station, and the channel on it.
#[derive(Clone, Copy, PartialEq, Eq, Debug)]
pub struct Finger {
    /// The chip of the pilot's code that falls on sample 0.
    pub phase: Phase,
    /// The number of chips by which its samples precede those of the reference path.
    pub delta: i16,
    /// The channel's Walsh row, 0 to 63.
    pub row: u8,
}

/// Returns the phase `delta` chips above another, modulo the period of the codes.
fn phase_above(phase: Phase, delta: i8) -> Phase
    ensures { result ≡ modulo_code (pos phase +ℤ delta) }
{
    let number = (i32::from(phase.get()) + i32::from(delta)).rem_euclid(32768);
    Phase::new(number as u16).unwrap()
}

/// Returns the finger for a Walsh row on the path `delta` chips earlier than the path at `phase`.
pub fn finger_at(row: u8, phase: Phase, delta: i8) -> Finger
    ensures value { result ≡ finger_of row phase delta }
    ensures near { is_near result.delta ≡ true }
    ensures row { result.row ≡ row }
{
    Finger {
        phase: phase_above(phase, delta),
        delta: i16::from(delta),
        row,
    }
}

/// A list of 1 to 8 fingers, whose soft values are summed. Contracts see the list.
#[derive(Drop)]
pub struct Fingers {
    items: [Finger; 8],
    count: u8,
}

impl Model for Fingers {
    ghost use Rattle.std.specs.Prelude.{◌≡◌, ◌≤◌, List, take, length};
    ghost use Rattle.rake_finger.specs.declared.finger.Finger.{Finger};

    ghost Value = { List Finger };

    ghost view = { λ f. take f.count f.items };

    ghost invariant = { λ f. (1 ≤ f.count) × (f.count ≤ 8) × (length f.items ≡ 8) };
}

impl Fingers {
    /// The list of one finger.
    pub fn one(first: Finger) -> Fingers
        ensures { result ≡ first ∷ [] }
    {
        Fingers {
            items: [first; 8],
            count: 1,
        }
    }

    /// Returns how many fingers there are, 1 to 8.
    pub fn len(&self) -> u8
        ensures value { result ≡ length self.now }
        ensures least { 1 ≤ result }
        ensures most { result ≤ 8 }
    {
        self.count
    }

    /// Finger `i`, counted from 0.
    pub fn get(&self, i: u8) -> Finger
        requires { i < length self.now }
        ensures { slice_get self.now i ≡ Some result }
    {
        self.items[i as usize]
    }

    /// The fingers.
    pub fn all(&self) -> &[Finger]
        ensures value { result.now ≡ self.now }
        ensures most { length result.now ≤ 8 }
    {
        &self.items[..usize::from(self.count)]
    }

    /// Adds a finger at the end. Returns `Full`, with the list unchanged, exactly if there are 8.
    pub fn push(&mut self, finger: Finger) -> Result<(), Full>
        ensures room { IsOk result ↔ (length self.old < 8) }
        ensures ok { OnOk result (self.new ≡ self.old ++ finger ∷ []) }
        ensures err { OnErr result (self.new ≡ self.old) }
    {
        if self.count == 8 {
            return Err(Full);
        }
        self.items[self.count as usize] = finger;
        self.count += 1;
        Ok(())
    }
}
