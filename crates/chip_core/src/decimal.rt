//! Decimal numbers, in scripts and on command lines.

ghost use Rattle.std.specs.Prelude.{◌≡◌, ◌≤◌, ◌<◌, ◌+◌, ◌*◌, ◌-◌, ◌^◌, true, length};
ghost use Rattle.std.specs.Char.{is_ascii_digit};
ghost use Rattle.chip_core.specs.Decimals.{digits_from};

/// Returns the number that at most 20 decimal digits spell, including leading zeros, or `None`
/// exactly if a byte of the text is not a digit. An empty text spells 0.
pub fn digits_in(text: &[u8]) -> Option<u128>
    requires { length text.now ≤ 20 }
    ensures { result ≡ digits_from 0 text.now }
{
    let mut number = 0;
    for &digit in text {
        if !digit.is_ascii_digit() {
            return None;
        }
        number = with_digit(number, digit);
    }
    Some(number)
}

/// Returns a number with another digit appended.
fn with_digit(number: u128, digit: u8) -> u128
    requires number { number < 10 ^ 20 }
    requires digit { is_ascii_digit digit ≡ true }
    ensures value { result ≡ 10 * number + (digit - 48) }
    ensures most { result ≤ 10 * number + 9 }
{
    10 * number + u128::from(digit - b'0')
}
