//! Reads the values that texts state: numbers, states of the long code, serial numbers and lists of
//! bits.

ghost use Rattle.std.specs.Prelude.{◌≡◌, ◌≤◌, ◌<◌, ◌+◌, ◌*◌, ◌-◌, ◌^◌, ℕ, true, length, take, drop};
ghost use Rattle.std.specs.Prelude.{codes, Some, None, IfSome, unsigned_abs, flat_map};
ghost use Rattle.std.specs.Char.{is_ascii_digit};
ghost use Rattle.chip_core.specs.Bits.{binary};
ghost use Rattle.long_code.specs.LongCode.{IsState};
ghost use Rattle.line_text.specs.StatedValues.{all_clear, begins_with, text_after, binary_digit};
ghost use Rattle.line_text.specs.StatedValues.{bits_in_text, power_bits_in, serial_number_in};
ghost use Rattle.line_text.specs.StatedValues.{hex_bits, hex_digit, hex_from, is_plain, negative};
ghost use Rattle.line_text.specs.StatedValues.{length_before, number_in, number_up_to, signed_in};
ghost use Rattle.line_text.specs.StatedValues.{state_in, unpadded};

use chip_core::{Bits, PowerBits, digits_in};
use long_code::State;

/// The number of octets that hold the bits of the longest list.
const MOST_OCTETS: usize = 148;

/// Returns how many bytes of a text precede the first `mark`; all if there is none.
pub fn length_before(text: &[u8], mark: u8) -> usize
    ensures value { result ≡ length_before mark text.now }
    ensures most { result ≤ length text.now }
{
    let mut length = 0;
    for &byte in text {
        if byte == mark {
            return length;
        }
        length += 1;
    }
    length
}

/// Returns whether `text` begins with `front`.
pub fn begins_with(text: &[u8], front: &[u8]) -> bool
    ensures { result ≡ begins_with text.now front.now }
{
    text.strip_prefix(front).is_some()
}

/// Reads a number that is spelled in decimal without leading zeros. Returns `None` if the text is
/// not such a number, or the number is above `most`.
#[tactic(auto, unfolding(crate::specs::StatedValues::number_up_to))]
pub fn number_up_to(text: &[u8], most: u64) -> Option<u64>
    ensures value { result ≡ number_up_to most text.now }
    ensures range { IfSome result (λ n. n ≤ most) }
{
    let number = number_in(text)?;
    if number > u128::from(most) {
        return None;
    }
    Some(number as u64)
}

/// Returns the number that 1 to 20 digits without a leading zero spell.
fn number_in(text: &[u8]) -> Option<u128>
    ensures { result ≡ number_in text.now }
{
    if !is_plain(text) {
        return None;
    }
    digits_in(text)
}

/// Returns whether a text has 1 to 20 bytes and no leading zero.
fn is_plain(text: &[u8]) -> bool
    ensures value { result ≡ is_plain text.now }
    ensures short { result ≡ true → length text.now ≤ 20 }
{
    if text.len() < 2 {
        return text.len() == 1;
    }
    if text.len() > 20 {
        return false;
    }
    text[0] != b'0'
}

/// Reads a signed number from -32,768 to 32,767, whose digits are as for `number_up_to`. Returns
/// `None` if the text is not such a number; `-0` is not one.
#[tactic(auto, unfolding(crate::specs::StatedValues::signed_in))]
pub fn signed_in(text: &[u8]) -> Option<i64>
    ensures value { result ≡ signed_in text.now }
    ensures range { IfSome result (λ n. unsigned_abs n ≤ 32768) }
{
    match text.strip_prefix(b"-") {
        Some(digits) => negative(number_up_to(digits, 32_768)?),
        None => Some(number_up_to(text, 32_767)? as i64),
    }
}

/// Returns the negative number of this size; `None` for 0.
fn negative(size: u64) -> Option<i64>
    requires { size ≤ 32768 }
    ensures value { result ≡ negative size }
    ensures range { IfSome result (λ n. unsigned_abs n ≤ 32768) }
{
    if size == 0 {
        return None;
    }
    Some(-(size as i64))
}

/// Reads the state of the long code (TIA/EIA-95-B, 7.1.3.1.10) that eleven hex digits of either
/// case spell. Returns `None` if the text is not such digits, or if they spell 0 or more than 42
/// bits.
#[tactic(auto, unfolding(crate::specs::StatedValues::state_in))]
pub fn state_in(text: &[u8]) -> Option<u64>
    ensures value { result ≡ state_in text.now }
    ensures range { IfSome result IsState }
{
    if text.len() != 11 {
        return None;
    }
    let state = State::new(hex_in(text)?)?;
    Some(state.value())
}

/// Reads the electronic serial number that eight hex digits of either case spell. Returns `None` if
/// the text is not such digits.
#[tactic(auto, unfolding(crate::specs::StatedValues::serial_number_in))]
pub fn serial_number_in(text: &[u8]) -> Option<u64>
    ensures value { result ≡ serial_number_in text.now }
    ensures range { IfSome result (λ n. n < 2 ^ 32) }
{
    if text.len() != 8 {
        return None;
    }
    hex_in(text)
}

/// Returns the number that hex digits spell.
fn hex_in(text: &[u8]) -> Option<u64>
    requires { length text.now ≤ 11 }
    ensures value { result ≡ hex_from 0 text.now }
    ensures range { IfSome result (λ n. n < 16 ^ length text.now) }
{
    let mut number = 0;
    for &digit in text {
        number = with_hex_digit(number, hex_digit(digit)?);
    }
    Some(number)
}

/// Returns the value of a hex digit of either case.
fn hex_digit(byte: u8) -> Option<u8>
    ensures value { result ≡ hex_digit byte }
    ensures range { IfSome result (λ n. n < 16) }
{
    let value = char::from(byte).to_digit(16)?;
    Some(value as u8)
}

/// Returns a number with another hex digit appended.
fn with_hex_digit(number: u64, digit: u8) -> u64
    requires number { number < 16 ^ 11 }
    requires digit { digit < 16 }
    ensures value { result ≡ 16 * number + digit }
    ensures most { result ≤ 16 * number + 15 }
{
    16 * number + u64::from(digit)
}

/// Returns the bit of a digit 0 or 1; `None` for any other byte.
fn binary_digit(byte: u8) -> Option<bool>
    ensures { result ≡ binary_digit byte }
{
    match byte {
        b'0' => Some(false),
        b'1' => Some(true),
        _ => None,
    }
}

/// Reads power control bits from sixteen digits 0 or 1, in order. Returns `None` if the text is not
/// such digits.
pub fn power_bits_in(text: &[u8]) -> Option<PowerBits>
    ensures { result ≡ power_bits_in text.now }
{
    if text.len() != 16 {
        return None;
    }
    let mut power_bits = [false; 16];
    for (k, &digit) in text.iter().enumerate() {
        power_bits[k] = binary_digit(digit)?;
    }
    Some(power_bits)
}

/// Reads the bits of a text `N:HEX`: N bits, at most 1,184, as two hex digits of either case for
/// each octet, padded at the end with zero bits. Returns `None` if the text does not have this
/// form, has more or fewer octets than N bits need, or is padded with other bits.
#[tactic(auto, unfolding(crate::specs::StatedValues::bits_in_text))]
pub fn bits_in(text: &[u8]) -> Option<Bits>
    ensures { result ≡ bits_in_text text.now }
{
    let colon = length_before(text, b':');
    let count = number_up_to(&text[..colon], 1184)?;
    let digits = text[colon..].strip_prefix(b":")?;
    unpadded(count as u16, &hex_bits(digits)?)
}

/// Returns the bits that hex digits spell.
#[tactic(auto, unfolding(crate::specs::StatedValues::hex_bits))]
fn hex_bits(digits: &[u8]) -> Option<Bits>
    ensures { result ≡ hex_bits digits.now }
{
    if digits.len() > 2 * MOST_OCTETS {
        return None;
    }
    let mut octets = [0; MOST_OCTETS];
    let octets = &mut octets[..digits.len() / 2];
    match hex::decode_to_slice(digits, octets) {
        Ok(()) => Some(bits_of(octets)),
        Err(_) => None,
    }
}

/// Returns the bits of octets, each with its highest bit first.
fn bits_of(octets: &[u8]) -> Bits
    requires { length octets.now ≤ 148 }
    ensures { result ≡ flat_map (binary 8) octets.now }
{
    let mut bits = Bits::empty();
    for &octet in octets {
        bits.append_number(8, u64::from(octet));
    }
    bits
}

/// Returns the first `count` bits of octets, if there are exactly as many octets as they need and
/// the bits after them are 0.
fn unpadded(count: u16, bits: &Bits) -> Option<Bits>
    requires { count ≤ 1184 }
    ensures { result ≡ unpadded count bits.now }
{
    if bits.len() < count || bits.len() >= count + 8 || !is_clear_from(bits, count) {
        return None;
    }
    Some(bits.part(0, count))
}

/// Returns whether all bits from a place on are 0.
fn is_clear_from(bits: &Bits, from: u16) -> bool
    ensures { result ≡ all_clear (drop from bits.now) }
{
    for place in from..bits.len() {
        if bits.get(place) {
            return false;
        }
    }
    true
}
