//! The numbers of the air interface that several crates use, each with its section of TIA/EIA-95-B.

/// The number of chips in the pilot's codes, 26 2/3 ms (7.1.3.1.9).
pub const CODE_CHIPS: u64 = 32_768;

/// The delay of a cell's codes for each step of its offset PILOT_PN, in chips (7.1.3.2.1).
pub const OFFSET_CHIPS: u64 = 64;

/// The number of chips in a superframe of 80 ms, the unit of the system time (7.7.1.2).
pub const SUPERFRAME_CHIPS: u64 = 98_304;

/// The number of chips in a frame of the sync channel, as in the pilot's codes (7.1.3.3).
pub const SYNC_FRAME_CHIPS: u64 = CODE_CHIPS;

/// The number of chips in a symbol of the sync channel, four periods of its row (7.1.3.3).
pub const SYNC_SYMBOL_CHIPS: u64 = 256;

/// The number of chips in a 20 ms frame of the paging and traffic channels (7.1.3.4, 7.1.3.5).
pub const DATA_FRAME_CHIPS: u64 = 24_576;

/// The delay of a traffic channel's frames for each step of its FRAME_OFFSET, 1.25 ms, in chips
/// (7.1.3.5.1).
pub const FRAME_OFFSET_CHIPS: u64 = 1_536;

/// The number of chips in a symbol of the paging and traffic channels, one period of its row.
pub const DATA_SYMBOL_CHIPS: u64 = 64;

/// The number of symbols in a frame of the sync channel as it is sent (7.1.3.3).
pub const SYNC_SYMBOLS: usize = 128;

/// The number of symbols in a frame of the paging and traffic channels as it is sent (7.1.3.4,
/// 7.1.3.5).
pub const DATA_SYMBOLS: usize = 384;

/// The number of bits in a frame of the paging and traffic channels at 9,600 bits per second, with
/// its quality indicator and its tail (7.1.3.4, 7.1.3.5).
pub const FRAME_BITS: u16 = 192;

/// The number of bits in a frame of rate set 2 at 14,400 bits per second, with its quality
/// indicator and its tail (7.1.3.5).
pub const SET_TWO_FRAME_BITS: u16 = 288;

/// The number of tail bits, all 0, that end a frame encoded by itself; they leave the encoder in
/// state zero (7.1.3.5).
pub const TAIL_BITS: u8 = 8;

/// The most frames that are decoded together: one, the one before it and the one after it.
pub const SPAN_FRAMES: u16 = 3;

/// The most bits of frames that are decoded together.
pub const SPAN_BITS: u16 = SPAN_FRAMES * FRAME_BITS;

/// The most symbols of frames that are decoded together.
pub const SPAN_SYMBOLS: usize = SPAN_FRAMES as usize * DATA_SYMBOLS;

/// The number of frames in a paging channel's slot (7.7.2).
pub const SLOT_FRAMES: u8 = 4;

/// The number of chips in a power control group, 1.25 ms (7.1.3.1.7).
pub const POWER_GROUP_CHIPS: u64 = 1_536;

/// The number of symbols in a power control group (7.1.3.1.7).
pub const POWER_GROUP_SYMBOLS: u16 = 24;

/// The number of chips in a Walsh row, and the number of rows (7.1.3.1.8).
pub const WALSH_CHIPS: u64 = 64;

/// The Walsh row of the pilot channel (7.1.3.1.8).
pub const PILOT_ROW: u8 = 0;

/// The Walsh row of the sync channel (7.1.3.1.8).
pub const SYNC_ROW: u8 = 32;

/// The number of a capsule's bits in a frame of the sync channel, after its SOM bit (7.7.1.2).
pub const SYNC_BODY_BITS: u16 = 31;

/// The number of a capsule's bits in the three frames of a superframe (7.7.1.2).
pub const SUPERFRAME_BITS: u16 = 93;

/// The powers of the delay in the first generator of the convolutional code, 753 octal
/// (7.1.3.1.3.1).
pub const FIRST_TAPS: [u8; 7] = [0, 1, 2, 3, 5, 7, 8];

/// The powers of the delay in the second generator, 561 octal.
pub const SECOND_TAPS: [u8; 5] = [0, 2, 3, 4, 8];
