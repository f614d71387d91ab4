//! The transmissions of the sync channel's message.

ghost use Rattle.std.specs.Prelude.{◌≡◌, ◌<◌, ◌≤◌, ◌+◌, ◌*◌, ◌/◌, ◌^◌, ◌==◌, Bool, false, ◌∷◌};
ghost use Rattle.std.specs.Prelude.{◌++◌, length, take, drop, replicate, get_or};
ghost use Rattle.sync_message.specs.Framing.{superframes_of};
ghost use Rattle.sync_message.specs.SyncMessage.{IsSyncMessage, sync_capsule};
ghost use Rattle.cell_plan.specs.Sendings.{message_of, superframes_a_sending, sync_frame_bits};
ghost use Rattle.cell_plan.specs.Transmitter.{IsSendable};

use cell_plan::CellIdentity;
use chip_core::Bits;
use chip_core::air::{SUPERFRAME_BITS, SUPERFRAME_CHIPS, SYNC_BODY_BITS};
use long_code::State;
use std::marker::Model;
use sync_message::{SyncFields, SyncMessage};

/// The transmissions of a cell's message, with the capsule of one of them in memory. Contracts see
/// the cell and the message.
///
/// TIA/EIA-95-B, 7.7.1.2: a superframe of 80 ms has three frames, and a message takes as many
/// superframes as it needs.
#[derive(Drop)]
pub struct Sendings {
    cell: CellIdentity,
    message: SyncFields,
    superframes: u64,
    kept: u64,
    capsule: Bits,
}

impl Model for Sendings {
    ghost use Rattle.cell_plan.specs.Transmitter.{Sent};

    ghost Value = { Sent };

    ghost use Rattle.cell_samples.specs.Kept.{IsKeptCapsule};

    ghost view = { λ s. record { cell = s.cell; message = s.message } };

    ghost invariant = { λ s. IsKeptCapsule s.cell s.message s.superframes s.kept s.capsule };
}

/// Returns how many superframes a capsule takes.
fn superframes_for(capsule: &Bits) -> u64
    ensures { result ≡ superframes_of capsule.now }
{
    u64::from((capsule.len() + SUPERFRAME_BITS - 1) / SUPERFRAME_BITS)
}

/// Returns the message of a transmission: it has the time and the long code's state four
/// superframes after its last one, less the pilot's offset.
fn message_for(
    cell: &CellIdentity,
    message: &SyncFields,
    superframes: u64,
    sending: u64,
) -> SyncFields
    requires sendable { IsSendable cell.now message.now }
    requires superframes { superframes ≡ superframes_a_sending cell.now message.now }
    requires few { superframes ≤ 13 }
    requires early { sending < 2 ^ 20 }
    ensures value { result ≡ message_of cell.now message.now sending }
    ensures is { IsSyncMessage result }
{
    let told = (sending + 1) * superframes + 4;
    let mut state = State::new(cell.lc).unwrap();
    state.jump(SUPERFRAME_CHIPS * told);
    SyncFields {
        pn: cell.pn,
        time: cell.time + told,
        lc: state.value(),
        ..*message
    }
}

/// Returns the capsule of a message that has a spelling.
fn capsule_for(cell: &CellIdentity, message: SyncFields) -> Bits
    requires { IsSyncMessage message }
    ensures { result ≡ sync_capsule cell.now.check30 message }
{
    SyncMessage::new(message).unwrap().encode(cell.check30)
}

/// Returns bit `i` of a list, and 0 after its end.
fn bit_or_zero(bits: &Bits, i: u16) -> bool
    ensures { result ≡ get_or bits.now i false }
{
    i < bits.len() && bits.get(i)
}

/// Returns the bits of a frame of a transmission: the SOM bit, 1 in the first frame, and 31 bits of
/// the capsule, with zeros after its end.
fn piece_of(capsule: &Bits, place: u16) -> Bits
    requires { 31 * place ≤ length capsule.now + 62 }
    ensures value { result ≡
        (place == 0) ∷ take 31 (drop (31 * place) (capsule.now ++ replicate 93 false)) }
    ensures count { length result ≡ 32 }
{
    let _most = capsule.len();
    let mut bits = Bits::empty();
    bits.append(place == 0);
    for k in 0..SYNC_BODY_BITS {
        bits.append(bit_or_zero(capsule, SYNC_BODY_BITS * place + k));
    }
    bits
}

impl Sendings {
    /// Makes the transmissions of a message, with the capsule of the first one in memory.
    pub fn new(cell: &CellIdentity, message: &SyncFields) -> Sendings
        requires { IsSendable cell.now message.now }
        ensures { result ≡ record { cell = cell.now; message = message.now } }
    {
        let superframes = superframes_for(&capsule_for(cell, *message));
        let first = message_for(cell, message, superframes, 0);
        Sendings {
            cell: *cell,
            message: *message,
            superframes,
            kept: 0,
            capsule: capsule_for(cell, first),
        }
    }

    /// Returns the capsule of a transmission.
    fn capsule_of(&mut self, sending: u64) -> Bits
        requires { sending < 2 ^ 20 }
        ensures value { result ≡ sync_capsule self.old.cell.check30
            (message_of self.old.cell self.old.message sending) }
        ensures same { self.new ≡ self.old }
    {
        if self.kept != sending {
            let message = message_for(&self.cell, &self.message, self.superframes, sending);
            self.capsule = capsule_for(&self.cell, message);
            self.kept = sending;
        }
        self.capsule
    }

    /// Returns the 32 bits of a frame.
    pub fn frame_bits(&mut self, frame: u64) -> Bits
        requires { frame < 2 ^ 20 }
        ensures value { result ≡ sync_frame_bits self.old.cell self.old.message frame }
        ensures count { length result ≡ 32 }
        ensures same { self.new ≡ self.old }
    {
        let frames = 3 * self.superframes;
        let capsule = self.capsule_of(frame / frames);
        piece_of(&capsule, (frame % frames) as u16)
    }
}
