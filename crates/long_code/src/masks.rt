//! The long-code masks of paging and traffic channels.

ghost use Rattle.std.specs.Prelude.{◌≡◌, ◌<◌, ◌≤◌, ◌^◌};
ghost use Rattle.long_code.specs.LongCode.{paging_mask, traffic_mask};

/// The first 13 bits of a paging channel's mask.
const PAGING_HEADER: u64 = 0b1_1000_1100_1101;

/// The first 10 bits of a public mask.
const PUBLIC_HEADER: u64 = 0b11_0001_1000;

/// The bits of an electronic serial number in the order of the public mask, bit 0 being the lowest.
const SERIAL_ORDER: [u8; 32] = [
    0, 31, 22, 13, 4, 26, 17, 8, 30, 21, 12, 3, 25, 16, 7, 29, 20, 11, 2, 24, 15, 6, 28, 19, 10, 1,
    23, 14, 5, 27, 18, 9,
];

/// Returns the mask of paging channel `channel`, 1 to 7, of the base station with pilot offset
/// index `pilot`, 0 to 511.
///
/// TIA/EIA-95-B, 7.7.2: from bit 41 down: 1100011001101, five zeros, the channel in 3 bits, twelve
/// zeros, and the pilot in 9 bits.
pub fn paging_mask(channel: u8, pilot: u16) -> u64
    requires first { 1 ≤ channel }
    requires last { channel ≤ 7 }
    requires pilot { pilot ≤ 511 }
    ensures value { result ≡ paging_mask channel pilot }
    ensures below { result < 2 ^ 42 }
{
    PAGING_HEADER << 29 | u64::from(channel) << 21 | u64::from(pilot)
}

/// Returns the public mask of the mobile station with this electronic serial number.
///
/// TIA/EIA-95-B, 7.1.3.1.6: from bit 41 down: 1100011000, and the number's 32 bits in a fixed
/// permutation.
pub fn traffic_mask(esn: u32) -> u64
    ensures value { result ≡ traffic_mask esn }
    ensures below { result < 2 ^ 42 }
{
    let mut mask = PUBLIC_HEADER;
    for place in &SERIAL_ORDER {
        mask = mask << 1 | u64::from(esn >> *place & 1);
    }
    mask
}
