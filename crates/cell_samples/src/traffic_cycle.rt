//! The frames of a traffic channel.

ghost use Rattle.std.specs.Prelude.{◌≡◌, ◌+◌, ◌*◌, ◌<◌, ◌≤◌, ◌^◌, length, All};
ghost use Rattle.std.specs.List.{flat_map};
ghost use Rattle.long_code.specs.LongCode.{IsState};
ghost use Rattle.cell_plan.specs.TrafficFrames.{sent_frame_state, traffic_frame_symbols};
ghost use Rattle.cell_plan.specs.TrafficFrames.{frames_in_turn, traffic_symbols, IsTrafficFrame};

use cell_plan::{CellIdentity, Series, TrafficFrame};
use chip_core::Bits;
use chip_core::air::{DATA_FRAME_CHIPS, FRAME_OFFSET_CHIPS};
use long_code::State;
use std::marker::Model;

/// The frames of a traffic channel, which a cell sends repeatedly. Contracts see the cell, the long
/// code's mask, FRAME_OFFSET, and the frames.
///
/// TIA/EIA-95-B, 7.1.3.5: each frame is encoded by itself, so a frame's symbols don't depend on the
/// frames before it. Nothing is allocated while symbols are made.
#[derive(Drop)]
pub struct TrafficCycle {
    cell: CellIdentity,
    mask: u64,
    offset: u8,
    frames: Series<TrafficFrame>,
}

impl Model for TrafficCycle {
    ghost use Rattle.cell_plan.specs.TrafficFrames.{FrameCycle, IsFrameCycle};

    ghost Value = { FrameCycle };

    ghost view = { λ c.
        record { cell = c.cell; mask = c.mask; offset = c.offset; frames = c.frames } };

    ghost invariant = { λ c. IsFrameCycle
        (record { cell = c.cell; mask = c.mask; offset = c.offset; frames = c.frames }) };
}

/// Returns the 384 symbols of the frame sent as frame `frame`, at whose start the long code is in
/// `state`.
fn symbols_in_turn(frames: &[TrafficFrame], frame: u64, state: &State, mask: u64) -> Bits
    requires mask { mask < 2 ^ 42 }
    requires some { 1 ≤ length frames.now }
    requires frames { All IsTrafficFrame frames.now }
    ensures value { result ≡
        flat_map (traffic_symbols state.now mask) (frames_in_turn frames.now frame) }
    ensures count { length result ≡ 384 }
{
    let place = (frame % frames.len() as u64) as usize;
    frames[place].symbols(state, mask)
}

impl TrafficCycle {
    /// Makes the cycle of the frames that a cell sends under a long-code mask, with a FRAME_OFFSET.
    pub fn new(
        cell: &CellIdentity,
        mask: u64,
        offset: u8,
        frames: Series<TrafficFrame>,
    ) -> TrafficCycle
        requires lc { IsState cell.now.lc }
        requires mask { mask < 2 ^ 42 }
        requires offset { offset ≤ 15 }
        requires some { 1 ≤ length frames }
        requires frames { All IsTrafficFrame frames }
        ensures { result ≡ record {
          cell = cell.now;
          mask = mask;
          offset = offset;
          frames = frames;
        } }
    {
        TrafficCycle {
            cell: *cell,
            mask,
            offset,
            frames,
        }
    }

    /// Returns the local chip at which a frame begins.
    pub fn first_chip(&self, frame: u64) -> u64
        requires { frame < 2 ^ 20 }
        ensures { result ≡ 24576 * frame + 1536 * self.now.offset }
    {
        DATA_FRAME_CHIPS * frame + FRAME_OFFSET_CHIPS * u64::from(self.offset)
    }

    /// Returns the long code's state at a frame's first chip.
    fn state_at(&self, frame: u64) -> State
        requires { frame < 2 ^ 20 }
        ensures { result ≡ sent_frame_state self.now frame }
    {
        let mut state = State::new(self.cell.lc).unwrap();
        state.jump(self.first_chip(frame));
        state
    }

    /// Returns the 384 symbols of a frame as they are sent.
    #[tactic(auto, unfolding(cell_plan::specs::TrafficFrames::traffic_frame_symbols))]
    pub fn symbols(&self, frame: u64) -> Bits
        requires { frame < 2 ^ 20 }
        ensures value { result ≡ traffic_frame_symbols self.now frame }
        ensures count { length result ≡ 384 }
    {
        let state = self.state_at(frame);
        symbols_in_turn(self.frames.as_slice(), frame, &state, self.mask)
    }
}
