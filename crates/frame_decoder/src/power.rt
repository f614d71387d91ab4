//! Power control bits as a handset receives them.

ghost use Rattle.frame_decoder.specs.Common.{places};
ghost use Rattle.std.specs.Prelude.{◌≡◌, ◌<◌, ◌≤◌, ◌+◌, ◌*◌, ◌^◌, ◌++◌, ◌∷◌, [], map, sum_by, All};
ghost use Rattle.std.specs.Prelude.{unsigned_abs, get_or, pos, int_lt};
ghost use Rattle.std.specs.List.Sorted.{IsStrictlyIncreasing};
ghost use Rattle.frame_decoder.specs.TrafficFrames.{group_sums, summed_subchannels, is_up};
ghost use Rattle.frame_decoder.specs.TrafficFrames.{power_bit};

use crate::frame_softs::FrameSofts;
use chip_core::PowerBits;
use symbol_path::PowerPlaces;

/// For each of the 16 power control bits of a frame, the sum of the soft values of the two symbols
/// that it replaces (TIA/EIA-95-B, 7.1.3.1.7).
pub type GroupSums = [i64; 16];

/// The soft values of a frame's power control bits on up to six subchannels.
///
/// TIA/EIA-95-B, 7.1.3.1.7: a frame has 16 power control bits, which are not scrambled; each
/// replaces two symbols.
#[derive(Clone, Copy, PartialEq, Eq, Debug)]
pub struct PowerSofts {
    /// The number of subchannels, at most six.
    pub count: u8,
    /// For each subchannel, the sum of the two soft values of each power control bit. Entries after
    /// the first `count` are unused.
    pub sums: [GroupSums; 6],
}

impl PowerSofts {
    /// Makes an empty value, without subchannels.
    pub fn empty() -> PowerSofts
        ensures value { summed_subchannels result ≡ [] }
        ensures count { result.count ≡ 0 }
    {
        PowerSofts {
            count: 0,
            sums: [[0; 16]; 6],
        }
    }

    /// Adds a subchannel, for which there must be room. `softs` has the soft values of a frame's
    /// symbols over its fingers, not descrambled, and `replaced` the places of the power control
    /// bits, as `symbol_path::power_places` returns them.
    pub fn push(&mut self, softs: &FrameSofts, replaced: &PowerPlaces)
        requires room { self.old.count < 6 }
        requires below { All (λ place. place < 384) replaced.now }
        requires rising { IsStrictlyIncreasing replaced.now }
        requires bound { sum_by unsigned_abs softs.now ≤ 2 ^ 62 }
        ensures value { summed_subchannels self.new ≡
            summed_subchannels self.old ++ group_sums replaced.now softs.now ∷ [] }
        ensures count { self.new.count ≡ self.old.count + 1 }
    {
        self.sums[usize::from(self.count)] = group_sums(softs, replaced);
        self.count += 1;
    }
}

/// Returns the sum of the two soft values of each of a frame's 16 power control bits.
fn group_sums(softs: &FrameSofts, replaced: &PowerPlaces) -> GroupSums
    requires below { All (λ place. place < 384) replaced.now }
    requires rising { IsStrictlyIncreasing replaced.now }
    requires bound { sum_by unsigned_abs softs.now ≤ 2 ^ 62 }
    ensures { result ≡ group_sums replaced.now softs.now }
{
    let mut sums = [0; 16];
    for group in 0..16 {
        let first = usize::from(replaced[2 * group]);
        let second = usize::from(replaced[2 * group + 1]);
        sums[group] = softs[first] + softs[second];
    }
    sums
}

/// Returns whether the sum of `group`, below 16, is above 0.
fn is_above_zero(sums: &GroupSums, group: usize) -> bool
    requires { group < 16 }
    ensures { result ≡ int_lt (pos 0) (get_or sums.now group (pos 0)) }
{
    sums[group] > 0
}

/// Returns whether the power control bit of `group`, below 16, is 0 on each of these subchannels.
fn is_up(heard: &[GroupSums], group: usize) -> bool
    requires { group < 16 }
    ensures { result ≡ is_up group heard.now }
{
    let mut up = true;
    for sums in heard {
        up &= is_above_zero(sums, group);
    }
    up
}

/// Returns the 16 power control bits of a frame. A bit is 0, which commands the handset to raise
/// its power, exactly if the sum of its soft values is above 0 on each subchannel; otherwise it is
/// 1, which commands it to lower its power.
///
/// TIA/EIA-95-B, 7.1.3.1.7: a 0 raises the power and a 1 lowers it.
pub fn commands(softs: &PowerSofts) -> PowerBits
    requires { softs.now.count ≤ 6 }
    ensures { result ≡ map (power_bit (summed_subchannels softs.now)) (places 16) }
{
    let heard = &softs.sums[..usize::from(softs.count)];
    let mut bits = [false; 16];
    for group in 0..16 {
        bits[group] = !is_up(heard, group);
    }
    bits
}
