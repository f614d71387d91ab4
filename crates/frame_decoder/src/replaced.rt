//! The symbols that power control bits replace.

ghost use Rattle.std.specs.Prelude.{◌≡◌, ◌≤◌, pos, slice_set, sum_by, unsigned_abs};
ghost use Rattle.frame_decoder.specs.Replaced.{unreplaced};

use crate::frame_softs::FrameSofts;
use symbol_path::PowerPlaces;

/// Sets the value at `place` to 0, if there is one.
fn clear_at(values: &mut FrameSofts, place: u16)
    ensures { values.new ≡ slice_set values.old place (pos 0) }
{
    let at = usize::from(place);
    if at < values.len() {
        values[at] = 0;
    }
}

/// Returns the soft values of a frame's 384 symbols, with those of power control bits set to 0.
/// `places` has their places, as `symbol_path::power_places` returns them. No absolute value grows.
///
/// TIA/EIA-95-B, 7.1.3.1.7: a power control bit replaces two symbols.
pub fn without_power_bits(softs: &FrameSofts, places: &PowerPlaces) -> FrameSofts
    ensures value { result ≡ unreplaced places.now softs.now }
    ensures bound { sum_by unsigned_abs result ≤ sum_by unsigned_abs softs.now }
{
    let mut kept = *softs;
    for place in places {
        clear_at(&mut kept, *place);
    }
    kept
}
