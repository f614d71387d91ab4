//! The scrambling of a channel, frame by frame.

use chip_core::air::{DATA_FRAME_CHIPS, DATA_SYMBOLS};
use long_code::State;
use symbol_path::{ScramblingBits, scramble_bits};

/// How the frames of a channel are scrambled: by the long code from each frame's first chip
/// on, under the channel's mask (TIA/EIA-95-B, 7.1.3.1.6).
#[derive(Clone, Copy)]
pub struct Scrambling {
    /// The long code's state at the first chip of frame 0.
    pub state: State,
    /// The mask, of 42 bits.
    pub mask: u64,
}

impl Scrambling {
    ghost use Rattle.std.specs.Prelude.{◌≡◌, ◌<◌, ◌*◌, ◌^◌, length};
    ghost use Rattle.long_code.specs.LongCode.{after};
    ghost use Rattle.symbol_path.specs.Scrambling.{scrambling};

    /// Returns the long code's state at a frame's first chip.
    pub fn state_at(&self, frame: u64) -> State
        requires { frame < 2 ^ 32 }
        ensures { result ≡ after self.now.state (24576 * frame) }
    {
        let mut state = self.state;
        state.jump(DATA_FRAME_CHIPS * frame);
        state
    }

    /// Returns the scrambling bits of a frame, one for each of its symbols.
    pub fn frame_bits(&self, frame: u64) -> ScramblingBits
        requires mask { self.now.mask < 2 ^ 42 }
        requires frame { frame < 2 ^ 32 }
        ensures value { result ≡ scrambling (after self.now.state (24576 * frame)) self.now.mask }
        ensures count { length result ≡ 384 }
    {
        let mut bits = [false; DATA_SYMBOLS];
        scramble_bits(&self.state_at(frame), self.mask, &mut bits);
        bits
    }
}
