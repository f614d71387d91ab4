//! The slot of a handset, by a hash of its key.

ghost use Rattle.std.specs.Prelude.{◌≡◌, ◌<◌};
ghost use Rattle.slot_mode.specs.Slots.{slot_of};

/// The factor of the hash.
const HASH_FACTOR: u64 = 40_503;

/// Returns the slot, 0 to 2,047, that the handset with this key monitors in the longest cycle of
/// 2,048 slots. In a shorter cycle it monitors the slot of this number modulo the cycle's length.
///
/// TIA/EIA-95-B, 6.6.7.1: the hash of a 32-bit key to one of 2,048 values, decorrelated by six
/// times the key's lowest 12 bits. The hash as written here is this project's own.
pub fn slot_of(key: u32) -> u16
    ensures value { result ≡ slot_of key }
    ensures below { result < 2048 }
{
    let low = key % 65_536;
    let high = key / 65_536;
    let mixed = low ^ high ^ (6 * (key % 4_096));
    let product = HASH_FACTOR * u64::from(mixed);
    (product % 65_536 / 32) as u16
}
