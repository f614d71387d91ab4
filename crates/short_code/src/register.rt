//! The shift registers that generate the codes.

ghost use Rattle.std.specs.Prelude.{◌≡◌, ◌<◌, ◌+◌, ◌*◌, ◌%◌, ◌^◌, ℕ};
ghost use Rattle.chip_core.specs.Bits.{digit};

/// The places of the register whose chips are added modulo 2 to give the next chip of the in-phase
/// code.
///
/// The newest chip is at place 0, so the chip `lag` chips before the next one is at place `lag -
/// 1`.
pub const I_PLACES: [u8; 6] = [14, 9, 7, 6, 5, 1];

/// The places of the register whose chips are added modulo 2 to give the next chip of the
/// quadrature code.
pub const Q_PLACES: [u8; 8] = [14, 11, 10, 9, 8, 4, 3, 2];

/// Returns the register after another chip: the last 15 chips, the newest at place 0.
pub fn shifted(register: u64, chip: bool) -> u64
    requires { register < 2 ^ 15 }
    ensures { result ≡ (2 * register + digit chip) % 2 ^ 15 }
{
    (2 * register + u64::from(chip)) & 0x7fff
}
