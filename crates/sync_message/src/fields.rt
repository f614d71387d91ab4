//! The fields of the message.

use chip_core::Bits;

/// The content of a Sync Channel Message, each field as a number of the width that the standard
/// specifies.
///
/// TIA/EIA-95-B, 7.7.1.3.
#[derive(Clone, Copy, PartialEq, Eq, Debug)]
pub struct SyncFields {
    /// P_REV, 8 bits: the revision of the protocol.
    pub prev: u8,
    /// MIN_P_REV, 8 bits: the smallest revision that a mobile station needs.
    pub min: u8,
    /// SID, 15 bits: the system's number.
    pub sid: u16,
    /// NID, 16 bits: the network's number.
    pub nid: u16,
    /// PILOT_PN, 9 bits: the offset of the pilot code, in units of 64 chips.
    pub pn: u16,
    /// LC_STATE, 42 bits: the state of the long code at SYS_TIME.
    pub lc: u64,
    /// SYS_TIME, 36 bits: the system's time, in units of 80 ms.
    pub time: u64,
    /// LP_SEC, 8 bits: the number of leap seconds.
    pub lp: u8,
    /// LTM_OFF, 6 bits: the offset of the local time, in units of 30 minutes.
    pub ltm: u8,
    /// DAYLT, 1 bit: 1 if daylight saving time is in effect.
    pub daylt: u8,
    /// PRAT, 2 bits: the data rate of the paging channel.
    pub prat: u8,
    /// CDMA_FREQ, 11 bits; absent if the capsule has 25 octets.
    pub freq: Option<u16>,
    /// The bits after the fields: 3 if the capsule has 25 octets, otherwise 8 for each octet past
    /// 26.
    pub rest: Bits,
}
