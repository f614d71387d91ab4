//! How the frames of a channel follow one another.

use chip_core::air::{
    DATA_FRAME_CHIPS, DATA_SYMBOL_CHIPS, SYNC_FRAME_CHIPS, SYNC_SYMBOL_CHIPS, WALSH_CHIPS,
};

/// The lengths in chips of a channel's frames and symbols, as they are sent. A frame is a number of
/// symbols, and a symbol a number of periods of the channel's row (TIA/EIA-95-B, 7.1.3).
#[derive(Clone, Copy, PartialEq, Eq, Debug)]
pub struct ChannelForm {
    /// The number of chips in a frame.
    pub frame_chips: u64,
    /// The number of chips in a symbol.
    pub symbol_chips: u64,
}

/// The pilot's form: it sends one symbol after the other (7.1.3.2).
pub const PILOT_FORM: ChannelForm = ChannelForm {
    frame_chips: WALSH_CHIPS,
    symbol_chips: WALSH_CHIPS,
};

/// The form of the sync channel (7.1.3.3).
pub const SYNC_FORM: ChannelForm = ChannelForm {
    frame_chips: SYNC_FRAME_CHIPS,
    symbol_chips: SYNC_SYMBOL_CHIPS,
};

/// The form of a paging channel, and of a traffic channel (7.1.3.4, 7.1.3.5).
pub const PAGING_FORM: ChannelForm = ChannelForm {
    frame_chips: DATA_FRAME_CHIPS,
    symbol_chips: DATA_SYMBOL_CHIPS,
};
