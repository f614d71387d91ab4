//! The contents of the messages, each field as a number of the width in its table.

use chip_core::{Bits, Numbers};

/// The head: the fields after the type of each message. `HEAD_FIELDS` has their widths.
///
/// TIA/EIA-95-B, 7.7.3.2.1.
#[derive(Clone, Copy, PartialEq, Eq, Debug)]
pub struct Head {
    /// ACK_SEQ: the number of the message that this one acknowledges.
    pub ack_seq: u8,
    /// MSG_SEQ: the message's own number.
    pub msg_seq: u8,
    /// ACK_REQ: whether it requests an acknowledgement.
    pub ack_req: bool,
    /// ENCRYPTION: how the bits after the head are encrypted; 0 if they aren't.
    pub encryption: u8,
}

/// The content of an In-Traffic System Parameters Message. `IN_TRAFFIC_FIELDS` has the widths of
/// the fields.
///
/// TIA/EIA-95-B, 7.7.3.3.2.7.
#[derive(Clone, Copy, PartialEq, Eq, Debug)]
pub struct InTrafficFields {
    /// SID: the system's number.
    pub sid: u16,
    /// NID: the network's number.
    pub nid: u16,
    /// SRCH_WIN_A: the search window of active and candidate pilots.
    pub wina: u8,
    /// SRCH_WIN_N: the search window of neighbors.
    pub winn: u8,
    /// SRCH_WIN_R: the search window of the remaining pilots.
    pub winr: u8,
    /// T_ADD: the strength at which a pilot becomes a candidate.
    pub tadd: u8,
    /// T_DROP: the strength below which a pilot's timer runs.
    pub tdrop: u8,
    /// T_COMP: by how much a candidate has to exceed an active pilot.
    pub tcomp: u8,
    /// T_TDROP: how long a pilot's timer runs.
    pub ttdrop: u8,
    /// NGHBR_MAX_AGE: how long a pilot stays a neighbor.
    pub age: u8,
    /// The bits after the fields.
    pub rest: Bits,
}

/// The content of a Neighbor List Update Message. It has as many neighbors as fit.
///
/// TIA/EIA-95-B, 7.7.3.3.2.8.
#[derive(Clone, Copy, PartialEq, Eq, Debug)]
pub struct UpdateFields {
    /// PILOT_INC, 4 bits: the step between the offsets of pilots.
    pub inc: u8,
    /// NGHBR_PN of each neighbor, 9 bits: the offset of its pilot code, in units of 64 chips.
    pub pns: Numbers,
    /// The bits after the last neighbor, at most 7.
    pub rest: Bits,
}

/// The search parameters that a handoff direction may contain. `SEARCH_FIELDS` has the widths of
/// the fields.
#[derive(Clone, Copy, PartialEq, Eq, Debug)]
pub struct Search {
    /// SRCH_WIN_A: the search window of active and candidate pilots.
    pub wina: u8,
    /// T_ADD: the strength at which a pilot becomes a candidate.
    pub tadd: u8,
    /// T_DROP: the strength below which a pilot's timer runs.
    pub tdrop: u8,
    /// T_COMP: by how much a candidate has to exceed an active pilot.
    pub tcomp: u8,
    /// T_TDROP: how long a pilot's timer runs.
    pub ttdrop: u8,
}

/// The content of an Extended Handoff Direction Message. It has as many records as fit.
///
/// TIA/EIA-95-B, 7.7.3.3.2.17.
#[derive(Clone, Copy, PartialEq, Eq, Debug)]
pub struct DirectionFields {
    /// USE_TIME, 1 bit: whether the handoff waits for the action time.
    pub use_time: u8,
    /// ACTION_TIME, 6 bits: the time of the handoff in units of 80 ms, modulo 64.
    pub action: u8,
    /// HDM_SEQ, 2 bits: the number of this direction.
    pub hdm: u8,
    /// The search parameters, if SEARCH_INCLUDED, 1 bit, is 1.
    pub search: Option<Search>,
    /// The additional fields, whose number of octets is ADD_LENGTH, 3 bits.
    pub extra: Bits,
    /// PILOT_PN of each record, 9 bits: the offset of the pilot code, in units of 64 chips.
    pub pns: Numbers,
    /// PWR_COMB_IND of each record, 1 bit: whether its power control bits are those of the previous
    /// record.
    pub combs: Numbers,
    /// CODE_CHAN of each record, 8 bits: the Walsh row of the traffic channel.
    pub rows: Numbers,
    /// The bits after the last record, at most 7.
    pub rest: Bits,
}
